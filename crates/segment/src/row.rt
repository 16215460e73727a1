// Rows: a row of a line with its stones and eyes, and a row told by one or two segments.
#![tactic(auto, unfolding(rules::specs::Answers::answer, rules::specs::Refusals::first, crate::specs::Rows::row_refusal, crate::specs::Rows::match_refusal, crate::specs::Rows::match_of, rules::specs::Line::scores, rules::specs::Line::inside, rules::specs::Line::holds, crate::specs::Rows::open_of, crate::specs::Rows::over_of))]

ghost use Rattle.std.specs.Prelude.{◌≡◌};
ghost use Rattle.rules.specs.Bit.{bit};
ghost use Rattle.rules.specs.Numbers.{kind_of};
ghost use Rattle.rules.specs.Line.{segment_at};
ghost use Rattle.rules.specs.Answers.{answer, checked};
ghost use Rattle.segment.specs.Rows.{unfilled, row_of, row_refusal, segment_scores, segment_holds, passes_before, open_of, over_of, match_of};
ghost use Rattle.segment.specs.Rows.{before_refusal, match_refusal};

use super::segment::{Segment, count_of, is_clear, is_dead, stones_of};
use rules::{Refusal, RowKind, colour_refusal, kind_refusal};

// Where the row's window starts, the colour's stones on its five cells and its eyes, bit k for cell k.
#[derive(Clone, Copy, Debug, PartialEq, Eq)]
pub struct Row {
    pub start: u8,
    pub stones: u8,
    pub eyes: u8,
}

impl Row {
    // The row of a colour and a kind at a segment, whose window starts at `start`.
    pub fn new(segment: Segment, start: u8, colour: u8, kind: u8) -> Result<Row, Refusal>
        ensures { result ≡ answer (row_refusal colour kind segment) (row_of start colour kind segment) }
    {
        row_refusal(colour, kind, segment)?;
        let stones = stones_of(segment.my(colour));
        let eyes = unfilled_of(segment.my(colour), RowKind::or_overlined(kind));
        Ok(Row {
            start,
            stones,
            eyes,
        })
    }
}

fn row_refusal(colour: u8, kind: u8, segment: Segment) -> Result<(), Refusal>
    ensures { result ≡ checked (row_refusal colour kind segment) }
{
    segment.refusal()?;
    colour_refusal(colour)?;
    kind_refusal(kind)
}

// The cells that a row of the kind has left to fill.
fn unfilled_of(my: u8, kind: RowKind) -> u8
    ensures { result ≡ unfilled (bit my) kind segment_at }
{
    !stones_of(my) & kind.eye_cells()
}

// Whether the colour has a row of the kind at segment `cur`; `prev` is the segment that starts one cell before it on the same line, if it
// is looked at.
pub fn matches(prev: Option<Segment>, cur: Segment, colour: u8, kind: u8) -> Result<bool, Refusal>
    ensures { result ≡ answer (match_refusal colour kind prev cur) (match_of colour (kind_of kind) prev cur) }
{
    before_refusal(prev)?;
    row_refusal(colour, kind, cur)?;
    Ok(is_match(colour, RowKind::or_overlined(kind), prev, cur))
}

fn before_refusal(prev: Option<Segment>) -> Result<(), Refusal>
    ensures { result ≡ checked (before_refusal prev) }
{
    match prev {
        None => Ok(()),
        Some(s) => s.refusal(),
    }
}

fn is_match(colour: u8, kind: RowKind, prev: Option<Segment>, cur: Segment) -> bool
    ensures { result ≡ match_of colour kind prev cur }
{
    match kind {
        RowKind::Two => is_open(colour, 2, prev, cur),
        RowKind::Three => is_open(colour, 3, prev, cur),
        RowKind::Straight => is_open(colour, 4, prev, cur),
        RowKind::Sword => scores(colour, 3, cur),
        RowKind::Four => scores(colour, 4, cur),
        RowKind::Five => scores(colour, 5, cur),
        RowKind::Overlining => is_over(colour, 4, prev, cur),
        RowKind::Overlined => is_over(colour, 5, prev, cur),
    }
}

fn scores(colour: u8, n: u8, s: Segment) -> bool
    ensures { result ≡ segment_scores colour n s }
{
    !is_dead(s.my(colour), s.op(colour), colour == 1) && count_of(s.my(colour)) == n
}

// Free and with n stones: no dead rule.
fn holds(colour: u8, n: u8, s: Segment) -> bool
    ensures { result ≡ segment_holds colour n s }
{
    is_clear(s.op(colour)) && count_of(s.my(colour)) == n
}

fn scores_before(colour: u8, n: u8, prev: Option<Segment>) -> bool
    ensures { result ≡ passes_before (segment_scores colour n) prev }
{
    match prev {
        None => false,
        Some(s) => scores(colour, n, s),
    }
}

fn holds_before(colour: u8, n: u8, prev: Option<Segment>) -> bool
    ensures { result ≡ passes_before (segment_holds colour n) prev }
{
    match prev {
        None => false,
        Some(s) => holds(colour, n, s),
    }
}

// Both score n, and the last cell, bit 4 of the stones, is empty: the stones are all in the four cells the two share.
fn is_open(colour: u8, n: u8, prev: Option<Segment>, cur: Segment) -> bool
    ensures { result ≡ open_of colour n prev cur }
{
    scores_before(colour, n, prev) && scores(colour, n, cur) && stones_of(cur.my(colour)) < 16
}

fn is_over(colour: u8, n: u8, prev: Option<Segment>, cur: Segment) -> bool
    ensures { result ≡ over_of colour n prev cur }
{
    holds_before(colour, n, prev) && holds(colour, n, cur)
}
