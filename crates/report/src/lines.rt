// The lines of a listing, put at the end of a text one behind the other.
ghost use Rattle.std.specs.Prelude.{◌≡◌, ◌+◌, ◌≤◌, [], ◌++◌, length};
ghost use Rattle.report.specs.Listing.{kind_text, point_line, lines_text, count_text};

use display::{number_label, point_label};
use lent::Kept;

// The lines of the first pairs, kind and code.
pub(crate) fn lines_into(pairs: &[u8; 450], count: u16, text: &mut Kept<3840>)
    requires { (count ≤ 225) × (text.old ≡ []) }
    ensures { text.new ≡ lines_text pairs.now count }
{
    for i in 0..count as usize {
        line_into(pairs[2 * i], pairs[2 * i + 1], text);
    }
}

// A point and its kind.
#[tactic(auto, using(crate::proofs::Words::point_few, crate::proofs::Words::kind_few), unfolding(crate::specs::Listing::point_line))]
fn line_into(kind: u8, code: u8, text: &mut Kept<3840>)
    requires { length text.old + 17 ≤ 3840 }
    ensures { text.new ≡ text.old ++ point_line kind code }
{
    put(point_label(code).as_slice(), text);
    put(b" ", text);
    put(kind_word(kind), text);
    put(b"\n", text);
}

#[tactic(auto, unfolding(crate::specs::Listing::kind_text, crate::specs::Listing::double_three, crate::specs::Listing::double_four, crate::specs::Listing::overline))]
fn kind_word(kind: u8) -> &'static [u8]
    ensures { result.now ≡ kind_text kind }
{
    match kind {
        1 => b"DoubleThree",
        2 => b"DoubleFour",
        _ => b"Overline",
    }
}

#[tactic(auto, unfolding(lent::specs::Lists::kept))]
fn put(bytes: &[u8], text: &mut Kept<3840>)
    requires { length text.old + length bytes.now ≤ 3840 }
    ensures { text.new ≡ text.old ++ bytes.now }
{
    text.keep(bytes);
}

// A word and a number.
#[tactic(auto, using(crate::proofs::Words::number_few), unfolding(crate::specs::Listing::count_text))]
pub(crate) fn count_into(word: &[u8], n: u8, text: &mut Kept<3840>)
    requires { (length word.now ≤ 10) × (length text.old + 15 ≤ 3840) }
    ensures { text.new ≡ text.old ++ count_text word.now n }
{
    put(word, text);
    put(number_label(n).as_slice(), text);
    put(b"\n", text);
}
