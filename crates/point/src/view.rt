// The eight views of a point (section 6), and one after another (document 02, No. 9).
#![tactic(auto, unfolding(rules::specs::Answers::answer, rules::specs::Refusals::unless, rules::specs::Refusals::view_refusal, rules::specs::Views::turn, rules::specs::Views::undo, rules::specs::Refusals::first, rules::specs::Views::then_row))]

ghost use Rattle.std.specs.Prelude.{◌≡◌, get_or};
ghost use Rattle.rules.specs.Refusals.{first, code_refusal, view_refusal};
ghost use Rattle.rules.specs.Answers.{answer, checked};
ghost use Rattle.rules.specs.Views.{turn, undo, then_view, then_row};

use super::index::code_refusal;
use rules::{Refusal, unless};

// NoNumber for a view over 7.
pub fn view_refusal(view: u8) -> Result<(), Refusal>
    ensures { result ≡ checked (view_refusal view) }
{
    unless(view < 8, Refusal::NoNumber)
}

// The code of the point to which a view sends a point; a view over 7 is taken for 7. A code over 224 is no point; the sum is done with it all
// the same, and gives a number that may be a point's (225 in view 1 gives 0) or wider than a code (255 in view 5 gives 269).
pub fn turned(code: u8, view: u8) -> u16
    ensures { result ≡ turn view code }
{
    let x = (code / 15) as u16;
    let y = (code % 15) as u16;
    let x_back = 14u16.saturating_sub(x);
    let y_back = 14u16.saturating_sub(y);
    match view {
        0 => 15 * x + y,
        1 => 15 * y + x_back,
        2 => 15 * x_back + y_back,
        3 => 15 * y_back + x,
        4 => 15 * x_back + y,
        5 => 15 * x + y_back,
        6 => 15 * y + x,
        _ => 15 * y_back + x_back,
    }
}

// The view that takes a view back; a number over 7, which is no view, is given back itself.
pub fn undone(view: u8) -> u8
    ensures { result ≡ undo view }
{
    match view {
        1 => 3,
        3 => 1,
        _ => view,
    }
}

// `turned`, with refusals.
pub fn turn_point(code: u8, view: u8) -> Result<u8, Refusal>
    ensures { result ≡ answer (first (code_refusal code) (view_refusal view)) (turn view code) }
{
    code_refusal(code)?;
    view_refusal(view)?;
    Ok(turned(code, view) as u8)
}

// The view that equals a view followed by the next one. Order matters: 4 then 1 is 6, 1 then 4 is 7.
pub fn view_then(view: u8, next: u8) -> Result<u8, Refusal>
    ensures { result ≡ answer (first (view_refusal view) (view_refusal next)) (then_view view next) }
{
    view_refusal(view)?;
    view_refusal(next)?;
    Ok(followed(view, next))
}

// The view that takes a view back.
pub fn view_back(view: u8) -> Result<u8, Refusal>
    ensures { result ≡ answer (view_refusal view) (undo view) }
{
    view_refusal(view)?;
    Ok(undone(view))
}

// A view followed by the next, by the table; 0 where the next is none of the eight.
fn followed(view: u8, next: u8) -> u8
    ensures { result ≡ get_or (then_row view) next 0 }
{
    let row = then_row(view);
    if next < 8 { row[next as usize] } else { 0 }
}

// What a view followed by each of the eight is: the table of 64, row by row. A view over 7 is taken for 7.
fn then_row(view: u8) -> [u8; 8]
    ensures { result ≡ then_row view }
{
    match view {
        0 => [0, 1, 2, 3, 4, 5, 6, 7],
        1 => [1, 2, 3, 0, 7, 6, 4, 5],
        2 => [2, 3, 0, 1, 5, 4, 7, 6],
        3 => [3, 0, 1, 2, 6, 7, 5, 4],
        4 => [4, 6, 5, 7, 0, 2, 1, 3],
        5 => [5, 7, 4, 6, 2, 0, 3, 1],
        6 => [6, 5, 7, 4, 3, 1, 0, 2],
        _ => [7, 4, 6, 5, 1, 3, 2, 0],
    }
}
