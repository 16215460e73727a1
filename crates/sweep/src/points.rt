// The points to ask about.
ghost use Rattle.std.specs.Prelude.{◌≡◌, length};
ghost use Rattle.sweep.specs.Marks.{marks, asked_at};

use super::marking::{marks_of, whole};
use super::through::{more_at, some_at};
use super::windows::rows_along;

// The points that are empty and where some kind may apply, by the tests of section 5 that need no nested question. Of any other number of
// cells than 225 no point is marked.
pub fn sweep_points(cells: &[u8]) -> [u16; 26]
    ensures { result ≡ marks (asked_at cells.now) }
{
    if cells.len() != 225 {
        return [0; 26];
    }
    sweep_board(cells)
}

// "Overline: some line has an Overlining through p." "DoubleFour: more than one Sword through p." "DoubleThree: more than one Two through
// p, and .." v, h, a and d are the four directions.
fn sweep_board(cells: &[u8]) -> [u16; 26]
    requires { length cells.now ≡ 225 }
    ensures { result ≡ marks (asked_at cells.now) }
{
    let blacks = marks_of(cells, 1);
    let whites = marks_of(cells, 2);
    let all = whole();
    let v = rows_along(&blacks, &whites, &all, 0);
    let h = rows_along(&blacks, &whites, &all, 1);
    let a = rows_along(&blacks, &whites, &all, 2);
    let d = rows_along(&blacks, &whites, &all, 3);
    let mut asked = [0u16; 26];
    for i in 5..21usize {
        let overline = some_at(&v.overs, &h.overs, &a.overs, &d.overs, i, false);
        let double_four = more_at(&v.swords, &h.swords, &a.swords, &d.swords, i, true);
        let double_two = more_at(&v.twos, &h.twos, &a.twos, &d.twos, i, false);
        asked[i] = all[i] & !(blacks[i] | whites[i]) & (overline | double_four | double_two);
    }
    asked
}
