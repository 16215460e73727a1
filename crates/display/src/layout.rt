// What all texts share: bytes are put at the end of a text, and a text that was laid out is handed out.
ghost use Rattle.std.specs.Prelude.{◌≡◌, ◌+◌, ◌≤◌, ◌++◌, length};
ghost use Rattle.rules.specs.Tools.{only};
ghost use Rattle.lent.specs.Lists.{list_out};
ghost use Rattle.display.specs.Answers.{written};

use lent::{Kept, write_out};
use rules::Refusal;

// Bytes put at the end of a text, if on.
#[tactic(auto, unfolding(lent::specs::Lists::kept))]
pub(crate) fn put_if<const N: usize>(on: bool, bytes: &[u8], text: &mut Kept<N>)
    requires { length text.old + length bytes.now ≤ N }
    ensures { text.new ≡ text.old ++ only on bytes.now }
{
    if on {
        text.keep(bytes);
    }
}

#[tactic(auto, unfolding(lent::specs::Lists::kept))]
pub(crate) fn put<const N: usize>(bytes: &[u8], text: &mut Kept<N>)
    requires { length text.old + length bytes.now ≤ N }
    ensures { text.new ≡ text.old ++ bytes.now }
{
    text.keep(bytes);
}

// A text written to the front of `out`, and its length; or 13.
#[tactic(auto, unfolding(crate::specs::Answers::written, rules::specs::Answers::answer))]
pub(crate) fn hand_out(text: &[u8], out: &mut [u8]) -> Result<usize, Refusal>
    ensures { (result ≡ written 0 out.old text.now)
        × (out.new ≡ list_out 0 out.old text.now) }
{
    write_out(text, out)?;
    Ok(text.len())
}
