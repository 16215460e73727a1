// A line by value. Each question is answered by a mask or a number of `masks`, or refused. `colour` is 1 for Black and 2 for White, `kind`
// 0 to 7 in the order of row.rs.
#![tactic(auto, using(crate::proofs::Lines::own_mask), unfolding(rules::specs::Answers::answer, rules::specs::Refusals::first, rules::specs::Refusals::unless, rules::specs::Line::inside, crate::specs::Lines::size_refusal, crate::specs::Lines::line_refusal, crate::specs::Lines::cell_refusal, crate::specs::Lines::start_refusal, crate::specs::Lines::line_refusal_at, crate::specs::Lines::line_refusal_for, crate::specs::Lines::line_rows_refusal, crate::specs::Lines::line_rows_on_refusal, crate::specs::Lines::windows_count, crate::specs::Lines::windows_out))]

ghost use Rattle.std.specs.Prelude.{◌≡◌, false, eqb};
ghost use Rattle.rules.specs.Numbers.{kind_of};
ghost use Rattle.rules.specs.Refusals.{first};
ghost use Rattle.rules.specs.Bit.{bit, mask_of};
ghost use Rattle.rules.specs.Line.{inside, empty_at, eye_of_some, eyes_of, bound_of};
ghost use Rattle.rules.specs.Answers.{answer, checked, stone_there};
ghost use Rattle.segment.specs.Segments.{mine};
ghost use Rattle.line.specs.Lists.{window_list};
ghost use Rattle.line.specs.Lines.{blacks, whites, own, other, size_refusal, line_refusal, cell_refusal, start_refusal};
ghost use Rattle.line.specs.Lines.{line_refusal_for, line_rows_refusal, line_rows_on_refusal, line_refusal_at, empty_line, line_with, segment_of};
ghost use Rattle.line.specs.Lines.{scores_of, holds_of, opens_of, line_rows_at, line_rows_on, windows_count, windows_out};

use super::bits::count_bits;
use lent::{Kept, hand_out};
use masks::{bit_at, segment_bits, set_bit};
use rules::{Player, Refusal, RowKind, colour_refusal, kind_refusal, unless};
use segment::{Segment, mine};

// Bit i of a mask is cell i.
#[derive(Clone, Copy, Debug, PartialEq, Eq)]
pub struct Line {
    pub blacks: u16,
    pub whites: u16,
    pub size: u8,
}

impl Line {
    // The empty line of a size.
    pub fn new(size: u8) -> Result<Line, Refusal>
        ensures { result ≡ answer (size_refusal size) (empty_line size) }
    {
        size_refusal(size)?;
        Ok(Line {
            blacks: 0,
            whites: 0,
            size,
        })
    }

    // The line with a stone of the colour on cell i, in place of what stood there.
    pub fn put(self, i: u8, colour: u8) -> Result<Line, Refusal>
        ensures { result ≡ answer (first (line_refusal_for self colour) (cell_refusal self i))
            (line_with self i (eqb colour 1) (eqb colour 2)) }
    {
        self.refusal_for(colour)?;
        self.cell_refusal(i)?;
        Ok(self.with_cell(i, colour == 1, colour == 2))
    }

    // The line with cell i empty.
    pub fn remove(self, i: u8) -> Result<Line, Refusal>
        ensures { result ≡ answer (line_refusal_at self i) (line_with self i false false) }
    {
        self.refusal_at(i)?;
        Ok(self.with_cell(i, false, false))
    }

    // What stands on cell i.
    pub fn stone(self, i: u8) -> Result<Option<Player>, Refusal>
        ensures { result ≡ answer (line_refusal_at self i) (stone_there (blacks self i) (whites self i)) }
    {
        self.refusal_at(i)?;
        if bit_at(self.blacks, i) {
            return Ok(Some(Player::Black));
        }
        if bit_at(self.whites, i) {
            return Ok(Some(Player::White));
        }
        Ok(None)
    }

    // The cells of the colour's stones.
    pub fn stones(self, colour: u8) -> Result<u16, Refusal>
        ensures { result ≡ answer (line_refusal_for self colour) (mask_of 16 (own self colour)) }
    {
        self.refusal_for(colour)?;
        Ok(self.my(colour))
    }

    pub fn empty_cells(self) -> Result<u16, Refusal>
        ensures { result ≡ answer (line_refusal self) (mask_of 16 (empty_at self.size (blacks self) (whites self))) }
    {
        self.refusal()?;
        Ok(masks::empty_cells(self.blacks, self.whites, self.size))
    }

    // The segment whose five cells start at cell j.
    pub fn segment(self, j: u8) -> Result<Segment, Refusal>
        ensures { result ≡ answer (first (line_refusal self) (start_refusal self j)) (segment_of self j) }
    {
        self.refusal()?;
        self.start_refusal(j)?;
        Ok(Segment {
            blacks: segment_bits(self.blacks, j),
            whites: segment_bits(self.whites, j),
        })
    }

    // Every window's start with its segment, three bytes each: start, black mask, white mask. The number given is that of the windows, at
    // most 11: 33 bytes are always enough, here and for rows (proofs/Lines.antt, windows-fit, rows-fit).
    #[tactic(auto, using(crate::proofs::Lines::windows_of, crate::proofs::Lines::counted_of), unfolding(rules::specs::Answers::answer, rules::specs::Refusals::first, lent::specs::Lists::list_refusal, lent::specs::Lists::list_out, crate::specs::Lines::windows_count, crate::specs::Lines::windows_out))]
    pub fn segments(self, out: &mut [u8]) -> Result<u16, Refusal>
        ensures { (result ≡ windows_count self (line_refusal self) (inside self.size) out.old)
            × (out.new ≡ windows_out self (line_refusal self) (inside self.size) out.old) }
    {
        self.refusal()?;
        self.list(masks::starts(self.size), out)
    }

    // The starts of the colour's rows of a kind, with their segments, three bytes each, and how many rows there are.
    #[tactic(auto, using(crate::proofs::Lines::windows_of, crate::proofs::Lines::counted_of), unfolding(rules::specs::Answers::answer, rules::specs::Refusals::first, lent::specs::Lists::list_refusal, lent::specs::Lists::list_out, crate::specs::Lines::windows_count, crate::specs::Lines::windows_out))]
    pub fn rows(self, colour: u8, kind: u8, out: &mut [u8]) -> Result<u16, Refusal>
        ensures { (result ≡ windows_count self (line_rows_refusal self colour kind) (line_rows_at self colour kind) out.old)
            × (out.new ≡ windows_out self (line_rows_refusal self colour kind) (line_rows_at self colour kind) out.old) }
    {
        self.rows_refusal(colour, kind)?;
        self.list(self.starts_of(colour, kind), out)
    }

    // Those of the rows that go through cell i.
    #[tactic(auto, using(crate::proofs::Lines::windows_of, crate::proofs::Lines::counted_of), unfolding(rules::specs::Answers::answer, rules::specs::Refusals::first, lent::specs::Lists::list_refusal, lent::specs::Lists::list_out, crate::specs::Lines::windows_count, crate::specs::Lines::windows_out))]
    pub fn rows_on(self, i: u8, colour: u8, kind: u8, out: &mut [u8]) -> Result<u16, Refusal>
        ensures { (result ≡ windows_count self (line_rows_on_refusal self i colour kind) (line_rows_on self i colour kind) out.old)
            × (out.new ≡ windows_out self (line_rows_on_refusal self i colour kind) (line_rows_on self i colour kind) out.old) }
    {
        self.rows_on_refusal(i, colour, kind)?;
        self.list(self.starts_on(i, colour, kind), out)
    }

    // Where the colour's rows of a kind through cell i stand.
    pub fn row_starts_on(self, i: u8, colour: u8, kind: u8) -> Result<u16, Refusal>
        ensures { result ≡ answer (line_rows_on_refusal self i colour kind) (mask_of 16 (line_rows_on self i colour kind)) }
    {
        self.rows_on_refusal(i, colour, kind)?;
        Ok(self.starts_on(i, colour, kind))
    }

    // 0 where the other colour leaves no room for a five, else the colour's stones and one, which no segment's score reaches.
    pub fn score_bound(self, colour: u8) -> Result<u8, Refusal>
        ensures { result ≡ answer (line_refusal_for self colour) (bound_of self.size (own self colour) (other self colour)) }
    {
        self.refusal_for(colour)?;
        Ok(masks::score_bound(self.my(colour), self.op(colour), self.size))
    }

    // Where the colour's rows of a kind stand.
    pub fn row_starts(self, colour: u8, kind: u8) -> Result<u16, Refusal>
        ensures { result ≡ answer (line_rows_refusal self colour kind) (mask_of 16 (line_rows_at self colour kind)) }
    {
        self.rows_refusal(colour, kind)?;
        Ok(self.starts_of(colour, kind))
    }

    // Where two neighbouring segments both score n, n modulo 8, with the stones all in the four cells they share.
    pub fn open_starts(self, colour: u8, n: u8) -> Result<u16, Refusal>
        ensures { result ≡ answer (line_refusal_for self colour) (mask_of 16 (opens_of self colour n)) }
    {
        self.refusal_for(colour)?;
        Ok(masks::open_starts(self.my(colour), self.op(colour), self.size, colour == 1, n))
    }

    // The eyes of the colour's rows of a kind, each cell once.
    pub fn row_eyes(self, colour: u8, kind: u8) -> Result<u16, Refusal>
        ensures { result ≡ answer (line_rows_refusal self colour kind)
            (mask_of 16 (eye_of_some self.size (own self colour) (other self colour) (kind_of kind) (line_rows_at self colour kind))) }
    {
        self.rows_refusal(colour, kind)?;
        Ok(masks::row_eyes(
            self.my(colour),
            self.op(colour),
            self.size,
            colour == 1,
            RowKind::or_overlined(kind),
        ))
    }

    // The empty cells s + k, for s one of the starts and k one of the cells.
    pub fn eyes_of(self, starts: u16, cells: u8) -> Result<u16, Refusal>
        ensures { result ≡ answer (line_refusal self)
            (mask_of 16 (eyes_of self.size (blacks self) (whites self) (bit starts) (bit cells))) }
    {
        self.refusal()?;
        Ok(masks::eyes_of(self.blacks, self.whites, self.size, starts, cells))
    }

    // Where a segment scores n for the colour, n modulo 8.
    pub fn score_mask(self, colour: u8, n: u8) -> Result<u16, Refusal>
        ensures { result ≡ answer (line_refusal_for self colour) (mask_of 16 (scores_of self colour n)) }
    {
        self.refusal_for(colour)?;
        Ok(masks::score_mask(self.my(colour), self.op(colour), self.size, colour == 1, n))
    }

    // Where a segment is free for the colour and holds n of its stones, n modulo 8.
    pub fn count_mask(self, colour: u8, n: u8) -> Result<u16, Refusal>
        ensures { result ≡ answer (line_refusal_for self colour) (mask_of 16 (holds_of self colour n)) }
    {
        self.refusal_for(colour)?;
        Ok(masks::count_mask(self.my(colour), self.op(colour), self.size, n))
    }

    // The colour's stones, and the other's.
    fn my(self, colour: u8) -> u16
        ensures { result ≡ mine colour self.blacks self.whites }
    {
        mine(colour, self.blacks, self.whites)
    }

    fn op(self, colour: u8) -> u16
        ensures { result ≡ mine colour self.whites self.blacks }
    {
        mine(colour, self.whites, self.blacks)
    }

    fn starts_of(self, colour: u8, kind: u8) -> u16
        ensures { result ≡ mask_of 16 (line_rows_at self colour kind) }
    {
        masks::row_starts(
            self.my(colour),
            self.op(colour),
            self.size,
            colour == 1,
            RowKind::or_overlined(kind),
        )
    }

    fn starts_on(self, i: u8, colour: u8, kind: u8) -> u16
        ensures { result ≡ mask_of 16 (line_rows_on self i colour kind) }
    {
        masks::row_starts_on(
            self.my(colour),
            self.op(colour),
            self.size,
            i,
            colour == 1,
            RowKind::or_overlined(kind),
        )
    }

    // The line with cell i as two tests say.
    fn with_cell(self, i: u8, black: bool, white: bool) -> Line
        ensures { result ≡ line_with self i black white }
    {
        Line {
            blacks: set_bit(self.blacks, i, black),
            whites: set_bit(self.whites, i, white),
            size: self.size,
        }
    }

    // NoPlace for the size, then Unsound.
    pub fn refusal(self) -> Result<(), Refusal>
        ensures { result ≡ checked (line_refusal self) }
    {
        size_refusal(self.size)?;
        unless(
            masks::is_sound(self.blacks, self.whites, self.size),
            Refusal::Unsound,
        )
    }

    fn cell_refusal(self, i: u8) -> Result<(), Refusal>
        ensures { result ≡ checked (cell_refusal self i) }
    {
        unless(i < self.size, Refusal::NoPlace)
    }

    fn start_refusal(self, j: u8) -> Result<(), Refusal>
        ensures { result ≡ checked (start_refusal self j) }
    {
        let size = self.size;
        unless(5 <= size && j <= size - 5, Refusal::NoPlace)
    }

    fn refusal_at(self, i: u8) -> Result<(), Refusal>
        ensures { result ≡ checked (line_refusal_at self i) }
    {
        self.refusal()?;
        self.cell_refusal(i)
    }

    fn refusal_for(self, colour: u8) -> Result<(), Refusal>
        ensures { result ≡ checked (line_refusal_for self colour) }
    {
        self.refusal()?;
        colour_refusal(colour)
    }

    fn rows_refusal(self, colour: u8, kind: u8) -> Result<(), Refusal>
        ensures { result ≡ checked (line_rows_refusal self colour kind) }
    {
        self.refusal_for(colour)?;
        kind_refusal(kind)
    }

    fn rows_on_refusal(self, i: u8, colour: u8, kind: u8) -> Result<(), Refusal>
        ensures { result ≡ checked (line_rows_on_refusal self i colour kind) }
    {
        self.rows_refusal(colour, kind)?;
        self.cell_refusal(i)
    }

    // The starts with their segments into a lent buffer, and how many starts there are.
    fn list(self, starts: u16, out: &mut [u8]) -> Result<u16, Refusal>
        ensures { (result ≡ windows_count self 0 (bit starts) out.old)
            × (out.new ≡ windows_out self 0 (bit starts) out.old) }
    {
        let windows = self.windows_at(starts);
        hand_out(windows.as_slice(), count_bits(starts) as u16, out)
    }

    // The starts with their segments, three bytes each.
    fn windows_at(self, starts: u16) -> Kept<48>
        ensures { result ≡ window_list (blacks self) (whites self) (bit starts) }
    {
        let mut windows = Kept::<48>::new();
        for j in 0..16u8 {
            if bit_at(starts, j) {
                windows.keep(&[
                    j,
                    segment_bits(self.blacks, j),
                    segment_bits(self.whites, j),
                ]);
            }
        }
        windows
    }
}

// NoPlace for a size outside 5 to 15.
fn size_refusal(size: u8) -> Result<(), Refusal>
    ensures { result ≡ checked (size_refusal size) }
{
    unless(5 <= size && size <= 15, Refusal::NoPlace)
}
