// The bytes of a text: white space, a text without it at its ends, and the refusals of any text.
ghost use Rattle.std.specs.Option.{is_some, option_map_or};
ghost use Rattle.std.specs.Result.{IfOk};
ghost use Rattle.std.specs.Prelude.{◌≡◌, ◌≤◌, ◌∷◌, [], ltb, length, get_or};
ghost use Rattle.rules.specs.Answers.{checked};
ghost use Rattle.rules.specs.Tools.{all_below};
ghost use Rattle.text.specs.Bytes.{space, trim, trim_end, leading, has, before, behind, parts, text_refusal};

use lent::{find, head, tail};
use rules::{Refusal, unless};

// Bytes 9 to 13 and 32.
#[tactic(auto, unfolding(crate::specs::Bytes::space))]
pub fn is_space(b: u8) -> bool
    ensures { result ≡ space b }
{
    matches!(b, 9..=13 | 32)
}

// How many bytes of white space stand at the start.
pub fn leading_space(s: &[u8]) -> usize
    ensures { result ≡ leading s.now }
{
    for i in 0..s.len() {
        if !is_space(s[i]) {
            return i;
        }
    }
    s.len()
}

// How many bytes are left without the white space at the end.
fn stop(s: &[u8]) -> usize
    ensures { result ≡ length (trim_end s.now) }
{
    let mut i = s.len();
    // stays: it counts down, and a `for` over the places from behind reads no plainer
    while 0 < i && is_space(s[i - 1]) {
        i -= 1;
    }
    i
}

// A text without the white space at its ends.
pub fn trimmed(s: &[u8]) -> &[u8]
    ensures value { result.now ≡ trim s.now }
    ensures short { length result.now ≤ length s.now }
{
    let t = tail(s, leading_space(s));
    head(t, stop(t))
}

// Whether the byte d stands in a text.
pub fn has(s: &[u8], d: u8) -> bool
    ensures { result ≡ has d s.now }
{
    s.contains(&d)
}

// What stands before the first d, and what stands behind it, where there is one: the first of the parts between the bytes d, and the text
// of the others.
pub(crate) fn parted(s: &[u8], d: u8) -> (&[u8], Option<&[u8]>)
    ensures before { result.0.now ≡ before d s.now }
    ensures short { length result.0.now ≤ length s.now }
    ensures behind { option_map_or (λ rest. rest.now) result.1 [] ≡ behind d s.now }
    ensures has { is_some result.1 ≡ has d s.now }
    ensures parts { parts d s.now ≡ result.0.now ∷ option_map_or (λ rest. parts d rest.now) result.1 [] }
{
    let at = find(s, d);
    if at < s.len() {
        (&s[..at], Some(&s[at + 1..]))
    } else {
        (s, None)
    }
}

// What is refused of any text: TextLong for more than 4,096 bytes, then TextHigh for a byte of 128 or more.
#[tactic(auto, unfolding(rules::specs::Answers::answer, rules::specs::Refusals::first, rules::specs::Refusals::unless, crate::specs::Bytes::text_refusal))]
pub fn text_refusal(s: &[u8]) -> Result<(), Refusal>
    ensures value { result ≡ checked (text_refusal s.now) }
    ensures short { IfOk result (λ _. length s.now ≤ 4096) }
{
    unless(s.len() <= 4096, Refusal::TextLong)?;
    unless(is_low(s), Refusal::TextHigh)
}

// Whether each byte is below 128.
fn is_low(s: &[u8]) -> bool
    ensures { result ≡ all_below (length s.now) (λ i. ltb (get_or s.now i 0) 128) }
{
    for b in s {
        if 128 <= *b {
            return false;
        }
    }
    true
}
