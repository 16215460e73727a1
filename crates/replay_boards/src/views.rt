// The eight views of a board, held to those of its points.
ghost use Rattle.std.specs.Prelude.{◌≡◌, ◌≤◌, length};

use super::asked::{answers, refuses, replay_room, replay_unsound};
use lent::head;
use point::undone;
use records::answer;
use renju::renju_turn_point;

// The eight views, and one that is none.
pub(crate) fn replay_views(before: u32, cells: [u8; 225]) -> u32 {
    let mut t = answer(before, refuses(&cells, &[b'v', 8], 225, 12));
    for view in 0u8..8 {
        t = replay_view(t, cells, view);
    }
    t
}

// Each stone where the view sends its point; and turned back.
fn replay_view(before: u32, cells: [u8; 225], view: u8) -> u32 {
    let page = sent(cells, view);
    let turned = head(&page, 225);
    let q = [b'v', view];
    let t = replay_unsound(replay_room(before, &cells, &q, 225, turned), cells, &q);
    answer(t, answers(turned, &[b'v', undone(view)], 225, 225, &cells))
}

// The cells, each where the view sends its point, and a byte behind them.
fn sent(cells: [u8; 225], view: u8) -> [u8; 226]
    ensures { 226 ≡ length result }
{
    let mut page = [255u8; 226];
    for code in 0u8..225 {
        let to = place_of(renju_turn_point(code, view));
        page[to] = cells[code as usize];
    }
    page
}

// A refusal's place is behind the cells.
fn place_of(word: u32) -> usize
    ensures { result ≤ 225 }
{
    if word < 225 { word as usize } else { 225 }
}
