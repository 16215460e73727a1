// Points: a letter A to O and a row 1 to 15; lists of them, parted by commas.
ghost use Rattle.std.specs.Prelude.{◌≡◌, ◌+◌, ◌≤◌, ◌++◌, leb, length};
ghost use Rattle.lent.specs.Lists.{list_out, laid};
ghost use Rattle.display.specs.Answers.{written};
ghost use Rattle.display.specs.Texts.{point_text, item_text, points_text};
ghost use Rattle.rules.specs.Refusals.{code_refusal};
ghost use Rattle.cells.specs.Cells.{codes_refusal};

use super::layout::{hand_out, put, put_if};
use super::number::number_into;
use cells::codes_refusal;
use lent::Kept;
use point::code_refusal;
use rules::Refusal;

// A point: 8 for a code over 224.
#[tactic(auto, unfolding(crate::specs::Answers::written, rules::specs::Answers::answer, lent::specs::Lists::list_refusal, lent::specs::Lists::list_out, rules::specs::Refusals::first))]
pub fn write_point(code: u8, out: &mut [u8]) -> Result<usize, Refusal>
    ensures { (result ≡ written (code_refusal code) out.old (point_text code))
        × (out.new ≡ list_out (code_refusal code) out.old (point_text code)) }
{
    code_refusal(code)?;
    hand_out(point_label(code).as_slice(), out)
}

// The same by value; no byte for a code over 224.
pub fn point_label(code: u8) -> Kept<4>
    ensures { result ≡ point_text code }
{
    let mut label = Kept::new();
    point_into(code, &mut label);
    label
}

// A list of points: 8 where a code is over 224. There may be any number of them, so no local buffer is sure to hold the text: it is
// measured first, then written in place.
#[tactic(auto, unfolding(crate::specs::Answers::written, rules::specs::Answers::answer, lent::specs::Lists::list_refusal, lent::specs::Lists::list_out, lent::specs::Lists::fits, rules::specs::Refusals::first, rules::specs::Refusals::unless))]
pub fn write_points(codes: &[u8], out: &mut [u8]) -> Result<usize, Refusal>
    ensures { (result ≡ written (codes_refusal codes.now) out.old (points_text codes.now))
        × (out.new ≡ list_out (codes_refusal codes.now) out.old (points_text codes.now)) }
{
    codes_refusal(codes)?;
    if !fits(codes, out.len()) {
        return Err(Refusal::NoRoom);
    }
    Ok(points_into(codes, out))
}

// Whether the text of a list of points has at most `room` bytes. The room is counted down: the length itself might not fit a number.
fn fits(codes: &[u8], room: usize) -> bool
    ensures { result ≡ leb (length (points_text codes.now)) room }
{
    let mut left = room;
    for i in 0..codes.len() {
        let n = item(0 < i, codes[i]).len();
        if left < n {
            return false;
        }
        left -= n;
    }
    true
}

// The points of a list from the front on; the length of their text.
fn points_into(codes: &[u8], out: &mut [u8]) -> usize
    requires { length (points_text codes.now) ≤ length out.old }
    ensures { (result ≡ length (points_text codes.now))
        × (out.new ≡ laid out.old (points_text codes.now)) }
{
    let mut n = 0;
    for i in 0..codes.len() {
        let text = item(0 < i, codes[i]);
        let end = n + text.len();
        out[n..end].copy_from_slice(text.as_slice());
        n = end;
    }
    n
}

// A point of a list, with a comma before it where it is behind another.
#[tactic(auto, unfolding(crate::specs::Texts::item_text))]
fn item(behind: bool, code: u8) -> Kept<5>
    ensures { result ≡ item_text behind code }
{
    let mut text = Kept::new();
    put_if(behind, b",", &mut text);
    point_into(code, &mut text);
    text
}

// A point at the end of a text. A code over 224 names no point: nothing is written.
#[tactic(auto, unfolding(crate::specs::Texts::point_text))]
fn point_into<const N: usize>(code: u8, text: &mut Kept<N>)
    requires { length text.old + 4 ≤ N }
    ensures { text.new ≡ text.old ++ point_text code }
{
    if 224 < code {
        return;
    }
    put(&[b'A' + code / 15], text);
    number_into(code % 15 + 1, text);
}
