// The second referee's answers off 225 cell bytes: each function as the one without `second_`, and equal to it (proofs/Equal.antt).
ghost use Rattle.std.specs.Prelude.{◌≡◌};
ghost use Rattle.rules.specs.Numbers.{player_of, kind_of, verdict_no};
ghost use Rattle.rules.specs.Grid.{rows_of, rows_on_point, four_eyes};
ghost use Rattle.rules.specs.Forbidden.{plain_of, strict_of, forbidden_list};
ghost use Rattle.lent.specs.Lists.{list_out};
ghost use Rattle.cells.specs.Cells.{cells_refusal, cells_refusal_at, cells_refusal_for};
ghost use Rattle.second.specs.Lists.{cells_rows_refusal, cells_rows_on_refusal, cells_forbidden_refusal};
ghost use Rattle.renju.specs.Answers.{word, list_word};

use super::answer::word;
use second::{forbidden, forbidden_points, forbidden_strict, four_eyes_on, rows, rows_on};

// The colour's rows of a kind, four bytes each: key, start, stones mask, eyes mask.
pub fn renju_second_rows(cells: &[u8], colour: u8, kind: u8, out: &mut [u8]) -> u32
    ensures { (result ≡ list_word 4 (cells_rows_refusal cells.now colour kind) out.old
        (rows_of (player_of colour) (kind_of kind) cells.now))
        × (out.new ≡ list_out (cells_rows_refusal cells.now colour kind) out.old
        (rows_of (player_of colour) (kind_of kind) cells.now)) }
{
    word(rows(cells, colour, kind, out))
}

// .. those through a point.
pub fn renju_second_rows_on(cells: &[u8], code: u8, colour: u8, kind: u8, out: &mut [u8]) -> u32
    ensures { (result ≡ list_word 4 (cells_rows_on_refusal cells.now code colour kind) out.old
        (rows_on_point (player_of colour) (kind_of kind) cells.now code))
        × (out.new ≡ list_out (cells_rows_on_refusal cells.now code colour kind) out.old
        (rows_on_point (player_of colour) (kind_of kind) cells.now code)) }
{
    word(rows_on(cells, code, colour, kind, out))
}

// The points that make the colour's Fours through a point a five, as codes, line by line.
pub fn renju_second_four_eyes_on(cells: &[u8], code: u8, colour: u8, out: &mut [u8]) -> u32
    ensures { (result ≡ list_word 1 (cells_refusal_for cells.now code colour) out.old
        (four_eyes (player_of colour) cells.now code))
        × (out.new ≡ list_out (cells_refusal_for cells.now code colour) out.old
        (four_eyes (player_of colour) cells.now code)) }
{
    word(four_eyes_on(cells, code, colour, out))
}

// The plain verdict, at an empty point.
pub fn renju_second_forbidden(cells: &[u8], code: u8) -> u32
    ensures { result ≡ word (cells_forbidden_refusal cells.now code) (verdict_no (plain_of cells.now code)) }
{
    word(forbidden(cells, code))
}

// The strict verdict: none at an occupied point, and where the stone completes a five.
pub fn renju_second_forbidden_strict(cells: &[u8], code: u8) -> u32
    ensures { result ≡ word (cells_refusal_at cells.now code) (verdict_no (strict_of cells.now code)) }
{
    word(forbidden_strict(cells, code))
}

// The points forbidden to Black, two bytes each: kind and code, by ascending code.
pub fn renju_second_forbidden_points(cells: &[u8], out: &mut [u8]) -> u32
    ensures { (result ≡ list_word 2 (cells_refusal cells.now) out.old (forbidden_list cells.now))
        × (out.new ≡ list_out (cells_refusal cells.now) out.old (forbidden_list cells.now)) }
{
    word(forbidden_points(cells, out))
}
