// Fields: a one-byte tag, a two-byte length, high byte first, and the value. Read off the front of any bytes, and put at the end of a list.
ghost use Rattle.std.specs.Prelude.{◌≡◌, ◌++◌, ◌+◌, ◌≤◌, ◌<◌, length};
ghost use Rattle.stored.specs.Fields.{field, field_length, field_value, behind_field, has_field};

use cells::value_at;
use lent::{Kept, head, tail};

// The tags of the two fields.
pub(crate) const VIEW: u8 = 1;

pub(crate) const MOVES: u8 = 2;

// The length that the field in front has.
#[tactic(auto, unfolding(crate::specs::Fields::field_length))]
pub(crate) fn field_length(bytes: &[u8]) -> usize
    ensures { result ≡ field_length bytes.now }
{
    let high = value_at(bytes, 1);
    let low = value_at(bytes, 2);
    256 * high as usize + low as usize
}

// Its value, as much of it as there is.
#[tactic(auto, unfolding(crate::specs::Fields::field_value))]
pub(crate) fn field_value(bytes: &[u8]) -> &[u8]
    ensures { result.now ≡ field_value bytes.now }
{
    head(tail(bytes, 3), field_length(bytes))
}

// What is behind it.
#[tactic(auto, unfolding(crate::specs::Fields::behind_field))]
pub(crate) fn behind_field(bytes: &[u8]) -> &[u8]
    ensures { result.now ≡ behind_field bytes.now }
{
    tail(tail(bytes, 3), field_length(bytes))
}

// Whether a field of the tag stands in front, with as many bytes as its length says.
#[tactic(auto, unfolding(crate::specs::Fields::has_field, crate::specs::Fields::field_length))]
pub(crate) fn has_field(bytes: &[u8], tag: u8) -> bool
    ensures { result ≡ has_field tag bytes.now }
{
    value_at(bytes, 0) == tag && 3 + field_length(bytes) <= bytes.len()
}

// A field put at the end of a list.
pub(crate) fn keep_field<const N: usize>(list: &mut Kept<N>, tag: u8, value: &[u8])
    requires { (length value.now < 65536) × (length list.old + (3 + length value.now) ≤ N) }
    ensures { list.new ≡ list.old ++ field tag value.now }
{
    let size = value.len();
    list.keep(&[tag, (size / 256) as u8, (size % 256) as u8]);
    list.keep(value);
}
