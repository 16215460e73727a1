// What is known of the Threes through a stone before any nested question: one look at the rows through each eye tells most of them.
ghost use Rattle.std.specs.Prelude.{◌≡◌, not, ◌||◌, cond, ◌+◌, ◌*◌, ◌/◌, ◌%◌, T, eqb};
ghost use Rattle.rules.specs.Grid.{start_masks, starts_of, numbered, next_from, rows_through};
ghost use Rattle.rules.specs.Forbidden.{some_row, more_than_one};
ghost use Rattle.rules.specs.declared.Player.TheVariants.{Black};
ghost use Rattle.rules.specs.declared.RowKind.TheVariants.{Three};
ghost use Rattle.grid.specs.Lines.{cells_of, Sound};
ghost use Rattle.referee.specs.Referee.{KnownOf};

use super::eye::{Three, eye_on};
use super::rows::rows_on;
use near::{Rows, more_than_one, next_start, set_start, some_row};
use point::Table;
use rules::Code;

// The Threes that are real for sure, and those that are left: all but the ones that are not real.
#[derive(Clone, Copy)]
pub(crate) struct Known {
    pub(crate) sure: [u16; 4],
    pub(crate) left: [u16; 4],
}

// Whether "more than one real Three" is known: yes where more than one is sure, no where not more than one is left.
pub(crate) fn is_told(known: Known) -> bool
    ensures { result ≡ (more_than_one (starts_of known.sure) || not (more_than_one (starts_of known.left))) }
{
    more_than_one(known.sure) || !more_than_one(known.left)
}

// .. with what was found of the Three of a number.
pub(crate) fn settled(known: Known, three: u8, real: bool) -> Known
    ensures { (result.sure ≡ cond real (start_masks (λ d j. cond (eqb (16 * d + j) three) real (starts_of known.sure d j)))
        known.sure)
        × (result.left ≡ cond real known.left
        (start_masks (λ d j. cond (eqb (16 * d + j) three) real (starts_of known.left d j)))) }
{
    let sure = known.sure;
    let left = known.left;
    if real {
        return Known {
            sure: set_start(sure, three, real),
            left,
        };
    }
    Known {
        sure,
        left: set_start(left, three, real),
    }
}

// The next start to go to from a number on: 64, which is none, where that is told, or where there is none.
pub(crate) fn next_unless(told: bool, starts: [u16; 4], from: u8) -> u8
    ensures { result ≡ cond told 64 (next_from (numbered (starts_of starts)) from) }
{
    if told {
        return 64;
    }
    next_start(starts, from)
}

// The looks at the eyes of the Threes through a stone, in order, until it is known.
pub(crate) fn looked_at(lines: &[u16; 144], table: &Table, code: Code, threes: [u16; 4]) -> Known
    requires { Sound lines.now × (threes ≡ start_masks (rows_through Black Three (cells_of lines.now) code)) }
    ensures { KnownOf (cells_of lines.now) code result.sure result.left }
{
    let mut known = Known {
        sure: [0; 4],
        left: threes,
    };
    // stays: the next Three is looked for by its bit, and none is left once it is told
    let mut three = next_start(threes, 0);
    while three < 64 {
        known = looked(lines, table, code, Three::new(three).unwrap(), known);
        three = next_unless(is_told(known), threes, three + 1);
    }
    known
}

// One look: a Three is not real where its eye completes a five, or where the verdict there is a kind that no trial tells. It is real where
// no trial can tell one. What is left is open.
fn looked(lines: &[u16; 144], table: &Table, code: Code, three: Three, known: Known) -> Known
    requires { Sound lines.now × T (rows_through Black Three (cells_of lines.now) code (three / 16) (three % 16))
        × KnownOf (cells_of lines.now) code known.sure known.left }
    ensures { KnownOf (cells_of lines.now) code result.sure result.left }
{
    let eye = Code::new(eye_on(lines, table, code, three)).unwrap();
    let rows = rows_on(lines, table, eye);
    if is_shut(rows) {
        return settled(known, three.get(), false);
    }
    if more_than_one(rows.twos) {
        return known;
    }
    settled(known, three.get(), true)
}

// A five, an overline or a double four by the rows through a point.
fn is_shut(rows: Rows) -> bool
    ensures { result ≡ (some_row (starts_of rows.fours) || some_row (starts_of rows.overlinings)
        || more_than_one (starts_of rows.swords)) }
{
    some_row(rows.fours) || some_row(rows.overlinings) || more_than_one(rows.swords)
}
