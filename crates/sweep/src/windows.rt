// The windows that start at each point, and the rows that do, in one direction.
ghost use Rattle.std.specs.Prelude.{◌≡◌, ◌≤◌, ◌<◌};
ghost use Rattle.rules.specs.Line.{free};
ghost use Rattle.rules.specs.Point.{cell_no};
ghost use Rattle.sweep.specs.Marks.{row_mask, marks, is_marked, Marked, every_point, Says, marked_line, Scored, AllRows, pair_from};

use super::marking::{ahead, back};
use masks::tally;

// Where a Two, a Sword and an Overlining of Black's starts.
#[derive(Clone, Copy)]
pub(crate) struct Rows {
    pub(crate) twos: [u16; 26],
    pub(crate) swords: [u16; 26],
    pub(crate) overs: [u16; 26],
}

// Where a window scores 2, where one scores 3, and where one is free and holds 4.
#[derive(Clone, Copy)]
struct Windows {
    twos: [u16; 26],
    threes: [u16; 26],
    fours: [u16; 26],
}

// The same of the points of one row.
#[derive(Clone, Copy)]
struct Scores {
    two: u16,
    three: u16,
    four: u16,
}

// "Sword, Four, Five at j: score 3, 4, 5." "Two, Three, Straight at j: windows j−1 and j both score 2, 3, 4 and cell j+4 is empty": window
// j is free, so only a black stone can stand there. "Overlining, Overlined at j: windows j−1 and j are both free and both hold 4, or both
// 5, counted without the dead rule."
pub(crate) fn rows_along(blacks: &[u16; 26], whites: &[u16; 26], whole: &[u16; 26], d: u8) -> Rows
    requires { Marked blacks.now × Marked whites.now × (whole.now ≡ marks every_point) × (d < 4) }
    ensures { AllRows (is_marked blacks.now) (is_marked whites.now) d
        result.twos result.swords result.overs }
{
    let w = windows_in(blacks, whites, whole, d);
    let swords = w.threes;
    let mut twos = [0u16; 26];
    let mut overs = [0u16; 26];
    for i in 5..21usize {
        twos[i] = both(&w.twos, d, i) & !ahead(blacks, d, i, 4);
        overs[i] = both(&w.fours, d, i);
    }
    Rows {
        twos,
        swords,
        overs,
    }
}

// For each point of row i, whether the windows that start there and one cell before it are both marked.
fn both(m: &[u16; 26], d: u8, i: usize) -> u16
    requires { Marked m.now × (d < 4) × (5 ≤ i) × (i < 21) }
    ensures { result ≡ row_mask (pair_from (is_marked m.now) d) i }
{
    m[i] & back(m, d, i, 1)
}

// All windows, row by row.
fn windows_in(blacks: &[u16; 26], whites: &[u16; 26], whole: &[u16; 26], d: u8) -> Windows
    requires { Marked blacks.now × Marked whites.now × (whole.now ≡ marks every_point) × (d < 4) }
    ensures { Scored marks (is_marked blacks.now) (is_marked whites.now) d
        result.twos result.threes result.fours }
{
    let mut twos = [0u16; 26];
    let mut threes = [0u16; 26];
    let mut fours = [0u16; 26];
    for i in 5..21usize {
        let s = scores_at(blacks, whites, whole, d, i);
        twos[i] = s.two;
        threes[i] = s.three;
        fours[i] = s.four;
    }
    Windows {
        twos,
        threes,
        fours,
    }
}

// "A window at j is cells j to j+4, with j+5 at most the line's size": its last cell is on the line. "It is dead if not free, and for Black
// also if a black stone stands at j−1 or j+5." It holds at most five stones, so two digits of their number tell 2, 3 and 4.
fn scores_at(blacks: &[u16; 26], whites: &[u16; 26], whole: &[u16; 26], d: u8, i: usize) -> Scores
    requires { Marked blacks.now × Marked whites.now × (whole.now ≡ marks every_point) × (d < 4) × (5 ≤ i) × (i < 21) }
    ensures { Scored (λ f. row_mask f i) (is_marked blacks.now) (is_marked whites.now) d
        result.two result.three result.four }
{
    let free = whole[i] & ahead(whole, d, i, 4) & none_of(whites, d, i);
    let alive = free & !(back(blacks, d, i, 1) | ahead(blacks, d, i, 5));
    let n = tally(
        ahead(blacks, d, i, 0),
        ahead(blacks, d, i, 1),
        ahead(blacks, d, i, 2),
        ahead(blacks, d, i, 3),
        ahead(blacks, d, i, 4),
    );
    Scores {
        two: alive & n.twos & !n.ones,
        three: alive & n.twos & n.ones,
        four: free & n.fours & !n.ones,
    }
}

// "It is free for a colour when it has no stone of the other": for each point of row i, whether no cell of the window that starts there is
// marked.
fn none_of(m: &[u16; 26], d: u8, i: usize) -> u16
    requires { Marked m.now × (d < 4) × (5 ≤ i) × (i < 21) }
    ensures { Says result i (λ p. free (marked_line (is_marked m.now) d p) (cell_no d p)) }
{
    !(ahead(m, d, i, 0)
        | ahead(m, d, i, 1)
        | ahead(m, d, i, 2)
        | ahead(m, d, i, 3)
        | ahead(m, d, i, 4))
}
