// Whether the rows through a point lead to nested questions.
ghost use Rattle.std.specs.Prelude.{◌≡◌, not, ◌&&◌};
ghost use Rattle.rules.specs.Grid.{starts_of};
ghost use Rattle.rules.specs.Forbidden.{some_row, more_than_one};

use near::{Rows, more_than_one, some_row};

// Whether a nested question is asked, by the rows through an empty point: not where one completes a five, nor after the first kind that
// applies, nor without more than one Two.
pub(crate) fn asks_nested(rows: Rows) -> bool
    ensures { result ≡ (not (some_row (starts_of rows.fours)) && not (some_row (starts_of rows.overlinings))
        && not (more_than_one (starts_of rows.swords)) && more_than_one (starts_of rows.twos)) }
{
    !some_row(rows.fours)
        && !some_row(rows.overlinings)
        && !more_than_one(rows.swords)
        && more_than_one(rows.twos)
}
