// What line.rs answers with masks, for all windows of a line at once: bit j is the window, the row or the cell at j. `my` and `op` are the
// stones of the own colour and of the other, any two masks; `black` says that the own colour is Black. A window is cells j to j+4, so bit j
// of `my >> k` is its cell k.
#![tactic(auto)]

mod bits;

ghost use Rattle.std.specs.Prelude.{◌≡◌, ◌&&◌, ◌-◌, ◌<◌, leb};
ghost use Rattle.std.specs.Bool.{beq};
ghost use Rattle.rules.specs.Bit.{bit, mask_of};
ghost use Rattle.rules.specs.Line.{inside, free, beside, read_number, holds, scores, open_at, over_at, row_at, span, through};
ghost use Rattle.rules.specs.Line.{empty_at, eye_of_some, spread_at, eyes_of, bound_of, sound_line, segment_mask};
ghost use Rattle.masks.specs.Masks.{sum_at, Tallied, spelled};

pub use bits::{bit_at, cell_value, set_bit};
use bits::{bits_below, bits_from};
use rules::RowKind;

// The windows that lie on a line of `size` cells.
pub fn starts(size: u8) -> u16
    ensures { result ≡ mask_of 16 (inside size) }
{
    bits_below(size.saturating_sub(4))
}

// The windows with no stone of the other colour.
fn free_mask(op: u16) -> u16
    ensures { result ≡ mask_of 16 (free (bit op)) }
{
    !(op | op >> 1 | op >> 2 | op >> 3 | op >> 4)
}

// How many of five masks have each bit, as three masks for the binary digits 1, 2 and 4.
#[derive(Clone, Copy, Debug, PartialEq, Eq)]
pub struct Digits {
    pub ones: u16,
    pub twos: u16,
    pub fours: u16,
}

// A full adder on the first three masks, a half adder on the last two, then the carries. With the five cells of each window for the masks
// it is how many stones each window holds.
pub fn tally(a: u16, b: u16, c: u16, d: u16, e: u16) -> Digits
    ensures { Tallied 16 (sum_at a b c d e) result.ones result.twos result.fours }
{
    let s1 = a ^ b ^ c;
    let c1 = a & b | c & (a ^ b);
    let s2 = d ^ e;
    let c2 = d & e;
    let c3 = s1 & s2;
    Digits {
        ones: s1 ^ s2,
        twos: c1 ^ c2 ^ c3,
        fours: c1 & c2 | c3 & (c1 ^ c2),
    }
}

// Where a mask's bits are as `on` says.
fn digit_is(digit: u16, on: bool) -> u16
    ensures { result ≡ mask_of 16 (λ j. beq on (bit digit j)) }
{
    if on { digit } else { !digit }
}

// Where the digits of a tally spell n.
fn select(digits: Digits, n: u8) -> u16
    ensures { result ≡ mask_of 16 (spelled digits.ones digits.twos digits.fours n) }
{
    digit_is(digits.ones, n & 1 != 0)
        & digit_is(digits.twos, n & 2 != 0)
        & digit_is(digits.fours, n & 4 != 0)
}

// The windows that are free for the colour of `my` and hold n of its stones, n modulo 8.
pub fn count_mask(my: u16, op: u16, size: u8, n: u8) -> u16
    ensures { result ≡ mask_of 16 (holds size (bit my) (bit op) (read_number n)) }
{
    select(tally(my, my >> 1, my >> 2, my >> 3, my >> 4), n) & free_mask(op) & starts(size)
}

// For Black, the windows with a black stone just before or just after them, which a five there would join: dead. None for White.
fn overline(my: u16, black: bool) -> u16
    ensures { result ≡ mask_of 16 (λ j. black && beside (bit my) j) }
{
    if black { my << 1 | my >> 5 } else { 0 }
}

// The windows that score n, n modulo 8.
pub fn score_mask(my: u16, op: u16, size: u8, black: bool, n: u8) -> u16
    ensures { result ≡ mask_of 16 (scores black size (bit my) (bit op) (read_number n)) }
{
    count_mask(my, op, size, n) & !overline(my, black)
}

// Where windows j-1 and j both score n, n modulo 8, and cell j+4 is empty: the stones are all in the four cells they share.
pub fn open_starts(my: u16, op: u16, size: u8, black: bool, n: u8) -> u16
    ensures { result ≡ mask_of 16 (open_at black size (bit my) (bit op) (read_number n)) }
{
    let s = score_mask(my, op, size, black, n);
    s & s << 1 & !(my >> 4)
}

// Where windows j-1 and j are both free and both hold n, n modulo 8: no dead rule.
fn over_starts(my: u16, op: u16, size: u8, n: u8) -> u16
    ensures { result ≡ mask_of 16 (over_at size (bit my) (bit op) (read_number n)) }
{
    let s = count_mask(my, op, size, n);
    s & s << 1
}

// Where a row of the kind stands.
pub fn row_starts(my: u16, op: u16, size: u8, black: bool, kind: RowKind) -> u16
    ensures { result ≡ mask_of 16 (row_at black size (bit my) (bit op) kind) }
{
    match kind {
        RowKind::Two => open_starts(my, op, size, black, 2),
        RowKind::Three => open_starts(my, op, size, black, 3),
        RowKind::Straight => open_starts(my, op, size, black, 4),
        RowKind::Sword => score_mask(my, op, size, black, 3),
        RowKind::Four => score_mask(my, op, size, black, 4),
        RowKind::Five => score_mask(my, op, size, black, 5),
        RowKind::Overlining => over_starts(my, op, size, 4),
        RowKind::Overlined => over_starts(my, op, size, 5),
    }
}

// How far back from a cell the row's start can be.
fn reach(kind: RowKind) -> u8
    ensures { result ≡ span kind - 1 }
{
    if kind.spans_two() { 3 } else { 4 }
}

// The first start from which a row of the kind goes through cell i.
fn first_through(kind: RowKind, i: u8) -> u8
    ensures { result ≡ i - (span kind - 1) }
{
    i.saturating_sub(reach(kind))
}

// The starts `first` to `last`.
fn starts_between(first: u8, last: u8) -> u16
    ensures { result ≡ mask_of 16 (λ j. leb first j && leb j last) }
{
    if last < 16 {
        bits_from(first) & bits_below(last + 1)
    } else {
        bits_from(first)
    }
}

// Where a row of the kind stands that goes through cell i.
pub fn row_starts_on(my: u16, op: u16, size: u8, i: u8, black: bool, kind: RowKind) -> u16
    ensures { result ≡ mask_of 16 (λ j. row_at black size (bit my) (bit op) kind j && through kind i j) }
{
    row_starts(my, op, size, black, kind) & starts_between(first_through(kind, i), i)
}

// The empty cells of the line.
pub fn empty_cells(my: u16, op: u16, size: u8) -> u16
    ensures { result ≡ mask_of 16 (empty_at size (bit my) (bit op)) }
{
    bits_below(size) & !(my | op)
}

// The starts moved up by k, where k is one of the cells.
fn moved(starts: u16, cells: u8, k: u8) -> u16
    requires { k < 8 }
    ensures { result ≡ mask_of 16 (λ i. bit cells k && (leb k i && bit starts (i - k))) }
{
    if cells >> k & 1 == 1 { starts << k } else { 0 }
}

// The cells s + k, for s one of the starts and k one of the cells.
fn spread(starts: u16, cells: u8) -> u16
    ensures { result ≡ mask_of 16 (spread_at (bit starts) (bit cells)) }
{
    let mut acc = 0u16;
    for k in 0..8u8 {
        acc |= moved(starts, cells, k);
    }
    acc
}

// The empty cells s + k, for s one of the starts and k one of the cells.
pub fn eyes_of(my: u16, op: u16, size: u8, starts: u16, cells: u8) -> u16
    ensures { result ≡ mask_of 16 (eyes_of size (bit my) (bit op) (bit starts) (bit cells)) }
{
    spread(starts, cells) & empty_cells(my, op, size)
}

// The eyes of the rows of the kind, each cell once. Two rows that share an eye are one four (C3): count eyes, not rows.
pub fn row_eyes(my: u16, op: u16, size: u8, black: bool, kind: RowKind) -> u16
    ensures { result ≡ mask_of 16 (eye_of_some size (bit my) (bit op) kind (row_at black size (bit my) (bit op) kind)) }
{
    let starts = row_starts(my, op, size, black, kind);
    eyes_of(my, op, size, starts, kind.eye_cells())
}

// A bound on what the own colour can make on the line: 0 where the other colour leaves no room for a five, else its stones and one,
// which no window's score reaches.
pub fn score_bound(my: u16, op: u16, size: u8) -> u8
    ensures { result ≡ bound_of size (bit my) (bit op) }
{
    if (size as u32) < u16::count_ones(op) + 5 {
        0
    } else {
        (u16::count_ones(my) as u8) + 1
    }
}

// Whether no cell has both colours and no stone is past the line's end.
pub fn is_sound(my: u16, op: u16, size: u8) -> bool
    ensures { result ≡ sound_line size (bit my) (bit op) }
{
    my & op | (my | op) & bits_from(size) == 0
}

// The stones of the segment of the window at j: bit 0 for the cell before the window, bits 1 to 5 for its cells, bit 6 for the cell after
// it. Shifted up one, so that there is a cell before cell 0; in 32 bits, so that no stone is lost at the top.
pub fn segment_bits(m: u16, j: u8) -> u8
    ensures { result ≡ segment_mask (bit m) j }
{
    if 32 <= j {
        return 0;
    }
    ((((m as u32) * 2) >> j) % 128) as u8
}
