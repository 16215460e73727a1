// A line alone, by the masks of its stones: where its rows of a kind start, and their eyes, as masks.
ghost use Rattle.std.specs.Prelude.{◌≡◌};
ghost use Rattle.rules.specs.Numbers.{kind_of};
ghost use Rattle.rules.specs.Bit.{mask_of};
ghost use Rattle.rules.specs.Line.{eye_of_some};
ghost use Rattle.line.specs.Lines.{own, other, line_rows_at, line_rows_on, line_rows_refusal, line_rows_on_refusal};
ghost use Rattle.renju.specs.Answers.{word, line_by};

use super::answer::word;
use line::Line;

pub fn renju_line_starts(blacks: u16, whites: u16, size: u8, colour: u8, kind: u8) -> u32
    ensures { result ≡ word (line_rows_refusal (line_by blacks whites size) colour kind)
        (mask_of 16 (line_rows_at (line_by blacks whites size) colour kind)) }
{
    word(Line {
        blacks,
        whites,
        size,
    }
    .row_starts(colour, kind))
}

// .. those through a cell.
pub fn renju_line_starts_on(
    blacks: u16,
    whites: u16,
    size: u8,
    colour: u8,
    kind: u8,
    cell: u8,
) -> u32
    ensures { result ≡ word (line_rows_on_refusal (line_by blacks whites size) cell colour kind)
        (mask_of 16 (line_rows_on (line_by blacks whites size) cell colour kind)) }
{
    word(Line {
        blacks,
        whites,
        size,
    }
    .row_starts_on(cell, colour, kind))
}

pub fn renju_line_eyes(blacks: u16, whites: u16, size: u8, colour: u8, kind: u8) -> u32
    ensures { result ≡ word (line_rows_refusal (line_by blacks whites size) colour kind)
        (mask_of 16 (eye_of_some size (own (line_by blacks whites size) colour) (other (line_by blacks whites size) colour) (kind_of kind)
        (line_rows_at (line_by blacks whites size) colour kind))) }
{
    word(Line {
        blacks,
        whites,
        size,
    }
    .row_eyes(colour, kind))
}
