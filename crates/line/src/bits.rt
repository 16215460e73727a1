// The set bits of a mask as a list, lowest first: what `Bits` of bits.rs walks.
ghost use Rattle.std.specs.Prelude.{◌≡◌};
ghost use Rattle.rules.specs.Bit.{bit, count_of};
ghost use Rattle.lent.specs.Lists.{list_refusal, list_out};
ghost use Rattle.rules.specs.Answers.{answer};
ghost use Rattle.line.specs.Lists.{bit_list};

use lent::{Kept, hand_out};
use masks::bit_at;
use rules::Refusal;

// The numbers of the set bits, below 16.
fn places_of(m: u16) -> Kept<16>
    ensures { result ≡ bit_list (bit m) }
{
    let mut places = Kept::<16>::new();
    for j in 0..16u8 {
        if bit_at(m, j) {
            places.keep(&[j]);
        }
    }
    places
}

// How many bits are set.
pub(crate) fn count_bits(m: u16) -> u8
    ensures { result ≡ count_of 16 (bit m) }
{
    u16::count_ones(m) as u8
}

// The numbers of the set bits written to the front of `out`, and how many there are; NoRoom where they do not fit.
pub fn set_bits(m: u16, out: &mut [u8]) -> Result<u16, Refusal>
    ensures { (result ≡ answer (list_refusal 0 out.old (bit_list (bit m))) (count_of 16 (bit m)))
        × (out.new ≡ list_out 0 out.old (bit_list (bit m))) }
{
    let places = places_of(m);
    hand_out(places.as_slice(), count_bits(m) as u16, out)
}
