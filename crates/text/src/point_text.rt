// A point in text: one letter, and one or two digits behind it.
ghost use Rattle.std.specs.Prelude.{◌≡◌, ◌≤◌, get_or, drop};
ghost use Rattle.rules.specs.Answers.{answer};
ghost use Rattle.text.specs.Points.{column_of, digit_value, number_of, item_at, item_refusal, item_code, point_text_refusal};

use super::bytes::{text_refusal, trimmed};
use rules::{Refusal, unless};

// The point that a text names, as its code.
#[tactic(auto, unfolding(rules::specs::Answers::answer, rules::specs::Refusals::first, crate::specs::Points::point_text_refusal))]
pub fn read_point(text: &[u8]) -> Result<u8, Refusal>
    ensures { result ≡ answer (point_text_refusal text.now) (item_code text.now) }
{
    text_refusal(text)?;
    item_in(text)
}

// .. whatever is refused of any text.
#[tactic(auto, unfolding(crate::specs::Points::item_at, crate::specs::Points::item_refusal, crate::specs::Points::item_code, crate::specs::Points::column_in, crate::specs::Points::row_in))]
pub(crate) fn item_in(s: &[u8]) -> Result<u8, Refusal>
    ensures { result ≡ answer (item_refusal s.now) (item_code s.now) }
{
    let t = trimmed(s);
    item_at(column(first_byte(t)), number(t))
}

#[tactic(auto, unfolding(rules::specs::Answers::answer, rules::specs::Refusals::first, rules::specs::Refusals::unless, crate::specs::Points::item_at, crate::specs::Points::place_refusal))]
fn item_at(x: u8, n: u8) -> Result<u8, Refusal>
    ensures { result ≡ item_at x n }
{
    unless(x < 15, Refusal::NoColumn)?;
    unless(1 <= n && n <= 15, Refusal::NoRow)?;
    Ok(15 * x + (n - 1))
}

fn first_byte(s: &[u8]) -> u8
    ensures { result ≡ get_or s.now 0 0 }
{
    if 0 < s.len() { s[0] } else { 0 }
}

// The column of a letter, and 15 for a byte that is none.
#[tactic(auto, unfolding(crate::specs::Points::column_of))]
fn column(b: u8) -> u8
    ensures { result ≡ column_of b }
{
    match b {
        b'A'..=b'O' => b - b'A',
        b'a'..=b'o' => b - b'a',
        _ => 15,
    }
}

// The number behind a point's letter, of one digit or of two; 0 where there is nothing, or more.
#[tactic(auto, unfolding(crate::specs::Points::number_of))]
fn number(s: &[u8]) -> u8
    ensures { result ≡ number_of (drop 1 s.now) }
{
    match s {
        [_, b] => digit_value(*b),
        [_, b, e] => 10 * digit_value(*b) + digit_value(*e),
        _ => 0,
    }
}

// The value of a digit, and 16 for a byte that is none.
#[tactic(auto, unfolding(crate::specs::Points::digit_value))]
fn digit_value(b: u8) -> u8
    ensures value { result ≡ digit_value b }
    ensures small { result ≤ 16 }
{
    match b {
        b'0'..=b'9' => b - b'0',
        _ => 16,
    }
}
