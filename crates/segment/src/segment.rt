// Five cells of a line, one place where a five can be made, with the cell just before them and the one just after: a black stone there
// would make the five an overline.
#![tactic(auto, unfolding(rules::specs::Answers::answer, rules::specs::Refusals::unless, crate::specs::Segments::segment_refusal, rules::specs::Refusals::first, crate::specs::Segments::segment_refusal_for, rules::specs::Line::dead))]

ghost use Rattle.std.specs.Prelude.{◌≡◌, not, cond, eqb};
ghost use Rattle.rules.specs.Bit.{bit};
ghost use Rattle.rules.specs.Line.{free, count, beside, dead, score, stones_mask, wanted, segment_at};
ghost use Rattle.rules.specs.Answers.{answer, checked};
ghost use Rattle.segment.specs.Segments.{mine, segment_own, segment_other, is_dead, segment_refusal, segment_refusal_for};

use masks::is_sound;
use rules::{Refusal, colour_refusal, unless};

// The five cells of a segment, bits 1 to 5.
const CELLS: u8 = 0b0111110;
// The cells just before and just after the five, bits 0 and 6.
const MARGINS: u8 = 0b1000001;

// The stones are two masks: bit 0 for the cell before, bits 1 to 5 for cells 0 to 4 of the window, bit 6 for the cell after.
#[derive(Clone, Copy, Debug, PartialEq, Eq)]
pub struct Segment {
    pub blacks: u8,
    pub whites: u8,
}

impl Segment {
    pub fn new(blacks: u8, whites: u8) -> Segment
        ensures { (result.blacks ≡ blacks) × (result.whites ≡ whites) }
    {
        Segment { blacks, whites }
    }

    // Whether the colour can still make a five here: no stone of the other colour, and for Black no overline.
    pub fn is_alive(self, colour: u8) -> Result<bool, Refusal>
        ensures { result ≡ answer (segment_refusal_for self colour) (not (is_dead self colour)) }
    {
        self.refusal_for(colour)?;
        Ok(!is_dead(self.my(colour), self.op(colour), colour == 1))
    }

    // How many of the five cells the colour has, or -1 in a dead segment.
    pub fn score(self, colour: u8) -> Result<i8, Refusal>
        ensures { result ≡ answer (segment_refusal_for self colour) (score (eqb colour 1) (segment_own self colour) (segment_other self colour) segment_at) }
    {
        self.refusal_for(colour)?;
        Ok(score_of(self.my(colour), self.op(colour), colour == 1))
    }

    // How many of the five cells the colour has, dead or alive.
    pub fn count(self, colour: u8) -> Result<u8, Refusal>
        ensures { result ≡ answer (segment_refusal_for self colour) (count (segment_own self colour) segment_at) }
    {
        self.refusal_for(colour)?;
        Ok(count_of(self.my(colour)))
    }

    // Whether the five cells have no stone of the other colour.
    pub fn is_free(self, colour: u8) -> Result<bool, Refusal>
        ensures { result ≡ answer (segment_refusal_for self colour) (free (segment_other self colour) segment_at) }
    {
        self.refusal_for(colour)?;
        Ok(is_clear(self.op(colour)))
    }

    // The colour's stones on the five cells, bit k for cell k.
    pub fn stone_bits(self, colour: u8) -> Result<u8, Refusal>
        ensures { result ≡ answer (segment_refusal_for self colour) (stones_mask (segment_own self colour) segment_at) }
    {
        self.refusal_for(colour)?;
        Ok(stones_of(self.my(colour)))
    }

    // The cells where a five still wants a stone, none in a dead segment.
    pub fn eye_bits(self, colour: u8) -> Result<u8, Refusal>
        ensures { result ≡ answer (segment_refusal_for self colour)
            (wanted (eqb colour 1) (segment_own self colour) (segment_other self colour) segment_at) }
    {
        self.refusal_for(colour)?;
        Ok(eyes_of(self.my(colour), self.op(colour), colour == 1))
    }

    // The colour's stones, and the other's.
    pub(crate) fn my(self, colour: u8) -> u8
        ensures { result ≡ mine colour self.blacks self.whites }
    {
        mine(colour, self.blacks, self.whites)
    }

    pub(crate) fn op(self, colour: u8) -> u8
        ensures { result ≡ mine colour self.whites self.blacks }
    {
        mine(colour, self.whites, self.blacks)
    }

    // Unsound for a segment that is not sound: it is a line of seven cells.
    pub fn refusal(self) -> Result<(), Refusal>
        ensures { result ≡ checked (segment_refusal self) }
    {
        let sound = is_sound(self.blacks as u16, self.whites as u16, 7);
        unless(sound, Refusal::Unsound)
    }

    // The refusal of a question about a colour.
    pub(crate) fn refusal_for(self, colour: u8) -> Result<(), Refusal>
        ensures { result ≡ checked (segment_refusal_for self colour) }
    {
        self.refusal()?;
        colour_refusal(colour)
    }
}

// Of two colours' stones those of one: Black's for 1, else White's. The masks of a segment have 8 bits, those of a line 16.
pub fn mine<T: Copy>(colour: u8, blacks: T, whites: T) -> T
    ensures { result ≡ cond (eqb colour 1) blacks whites }
{
    if colour == 1 { blacks } else { whites }
}

// The rest works on the two masks of a segment, the colour's stones and the other's: no stone of the other on the five cells.
pub(crate) fn is_clear(op: u8) -> bool
    ensures { result ≡ free (bit op) segment_at }
{
    op & CELLS == 0
}

// A stone of the colour just before or just after the five cells.
fn is_beside(my: u8) -> bool
    ensures { result ≡ beside (bit my) segment_at }
{
    my & MARGINS != 0
}

// Not free, and for Black also with a black stone beside: no five can be made here.
pub(crate) fn is_dead(my: u8, op: u8, black: bool) -> bool
    ensures { result ≡ dead black (bit my) (bit op) segment_at }
{
    !is_clear(op) || black && is_beside(my)
}

pub(crate) fn stones_of(my: u8) -> u8
    ensures { result ≡ stones_mask (bit my) segment_at }
{
    (my & CELLS) >> 1
}

pub(crate) fn count_of(my: u8) -> u8
    ensures { result ≡ count (bit my) segment_at }
{
    u8::count_ones(my & CELLS) as u8
}

fn score_of(my: u8, op: u8, black: bool) -> i8
    ensures { result ≡ score black (bit my) (bit op) segment_at }
{
    if is_dead(my, op, black) {
        return -1;
    }
    count_of(my) as i8
}

fn eyes_of(my: u8, op: u8, black: bool) -> u8
    ensures { result ≡ wanted black (bit my) (bit op) segment_at }
{
    if is_dead(my, op, black) {
        return 0;
    }
    !stones_of(my) & CELLS >> 1
}
