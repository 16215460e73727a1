// Numbers in decimal digits.
ghost use Rattle.std.specs.Prelude.{◌≡◌, ◌+◌, ◌≤◌, ◌++◌, length};
ghost use Rattle.display.specs.Texts.{number_text};

use super::layout::{put, put_if};
use lent::Kept;

// A number in digits, without leading zeros.
#[tactic(auto, using(crate::proofs::Sizes::number_short))]
pub fn number_label(n: u8) -> Kept<4>
    ensures { result ≡ number_text n }
{
    let mut label = Kept::new();
    number_into(n, &mut label);
    label
}

// .. at the end of a text.
#[tactic(auto, unfolding(crate::specs::Texts::number_text))]
pub(crate) fn number_into<const N: usize>(n: u8, text: &mut Kept<N>)
    requires { length text.old + 3 ≤ N }
    ensures { text.new ≡ text.old ++ number_text n }
{
    put_if(100 <= n, &[b'0' + n / 100], text);
    put_if(10 <= n, &[b'0' + n / 10 % 10], text);
    put(&[b'0' + n % 10], text);
}
