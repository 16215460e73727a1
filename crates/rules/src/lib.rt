// The types of the game with the paper's numbers, refusals and answers. The rules themselves are in specs/, their laws in proofs/.
#![tactic(auto)]

mod below;
mod refusal;

ghost use Rattle.std.specs.Prelude.{◌≡◌};
ghost use Rattle.rules.specs.Numbers.{colour_no, player_of, is_colour, is_black, is_white, opponent_of};
ghost use Rattle.rules.specs.Numbers.{direction_no, direction_of, kind_no, kind_of, verdict_no, is_none};
ghost use Rattle.rules.specs.Refusals.{colour_refusal, direction_refusal, kind_refusal};
ghost use Rattle.rules.specs.Answers.{answer};
ghost use Rattle.rules.specs.Line.{row_stones, spans_two, eye_cells};
ghost use Rattle.rules.specs.Depth.{larger};

pub use below::{Below, Bit, Code, Key, Way};
pub use refusal::{Refusal, colour_refusal, kind_refusal, unless};

// The two colours of stones. As a number: 1 Black, 2 White.
#[derive(Clone, Copy, Debug, PartialEq, Eq)]
pub enum Player {
    Black = 1,
    White = 2,
}

// The four directions of lines, in the paper's order. As a number: 0 to 3.
#[derive(Clone, Copy, Debug, PartialEq, Eq)]
pub enum Direction {
    Vertical,
    Horizontal,
    Ascending,
    Descending,
}

// The rows of the rules, in the order of row.rs. As a number: 0 to 7.
#[derive(Clone, Copy, Debug, PartialEq, Eq)]
pub enum RowKind {
    Two,
    Three,
    Straight,
    Sword,
    Four,
    Five,
    Overlining,
    Overlined,
}

// What the referee says of a point. As a number: 0 none, 1 DoubleThree, 2 DoubleFour, 3 Overline.
#[derive(Clone, Copy, Debug, PartialEq, Eq)]
pub enum Verdict {
    None,
    DoubleThree,
    DoubleFour,
    Overline,
}

impl Player {
    pub fn number(self) -> u8
        ensures { result ≡ colour_no self }
    {
        self as u8
    }

    // Black for 1, White for every other number: for callers that have refused what is no colour's.
    pub fn or_white(n: u8) -> Player
        ensures { result ≡ player_of n }
    {
        if n == 1 { Player::Black } else { Player::White }
    }

    pub fn is_black(self) -> bool
        ensures { result ≡ is_black self }
    {
        self == Player::Black
    }

    pub fn is_white(self) -> bool
        ensures { result ≡ is_white self }
    {
        self == Player::White
    }

    pub fn opponent(self) -> Player
        ensures { result ≡ opponent_of self }
    {
        match self {
            Player::Black => Player::White,
            Player::White => Player::Black,
        }
    }
}

// The colour of a number.
impl TryFrom<u8> for Player {
    type Error = Refusal;

    ghost try_from_gives = { λ n r. r ≡ answer (colour_refusal n) (player_of n) };

    #[tactic(auto, unfolding(crate::specs::Answers::answer))]
    fn try_from(n: u8) -> Result<Player, Refusal> {
        colour_refusal(n)?;
        Ok(Player::or_white(n))
    }
}

// Whether a number is a colour's.
pub fn is_colour(n: u8) -> bool
    ensures { result ≡ is_colour n }
{
    n == 1 || n == 2
}

impl Direction {
    pub fn number(self) -> u8
        ensures { result ≡ direction_no self }
    {
        self as u8
    }

    // The direction of a number up to 3, Descending for every other: for callers that have refused those.
    pub fn or_descending(n: u8) -> Direction
        ensures { result ≡ direction_of n }
    {
        match n {
            0 => Direction::Vertical,
            1 => Direction::Horizontal,
            2 => Direction::Ascending,
            _ => Direction::Descending,
        }
    }
}

// The direction of a number.
impl TryFrom<u8> for Direction {
    type Error = Refusal;

    ghost try_from_gives = { λ n r. r ≡ answer (direction_refusal n) (direction_of n) };

    #[tactic(auto, unfolding(crate::specs::Answers::answer, crate::specs::Refusals::direction_refusal, crate::specs::Refusals::unless))]
    fn try_from(n: u8) -> Result<Direction, Refusal> {
        unless(n < 4, Refusal::NoNumber)?;
        Ok(Direction::or_descending(n))
    }
}

impl RowKind {
    pub fn number(self) -> u8
        ensures { result ≡ kind_no self }
    {
        self as u8
    }

    // The kind of a number up to 7, Overlined for every other: for callers that have refused those.
    pub fn or_overlined(n: u8) -> RowKind
        ensures { result ≡ kind_of n }
    {
        match n {
            0 => RowKind::Two,
            1 => RowKind::Three,
            2 => RowKind::Straight,
            3 => RowKind::Sword,
            4 => RowKind::Four,
            5 => RowKind::Five,
            6 => RowKind::Overlining,
            _ => RowKind::Overlined,
        }
    }

    // How many own stones each window of the row holds.
    pub fn stones(self) -> u8
        ensures { result ≡ row_stones self }
    {
        match self {
            RowKind::Two => 2,
            RowKind::Three | RowKind::Sword => 3,
            RowKind::Straight | RowKind::Four | RowKind::Overlining => 4,
            RowKind::Five | RowKind::Overlined => 5,
        }
    }

    // Whether the row needs the window before its own as well.
    pub fn spans_two(self) -> bool
        ensures { result ≡ spans_two self }
    {
        match self {
            RowKind::Sword | RowKind::Four | RowKind::Five => false,
            _ => true,
        }
    }

    // The cells of the (later) window that can be the row's eyes, as a mask: all five, but only the four shared ones for the open
    // rows, whose fifth cell is an open end.
    #[tactic(auto, unfolding(crate::specs::Line::eye_cells, crate::specs::Bit::mask_of))]
    pub fn eye_cells(self) -> u8
        ensures { result ≡ eye_cells self }
    {
        match self {
            RowKind::Two | RowKind::Three | RowKind::Straight => 15,
            _ => 31,
        }
    }
}

// The kind of a number.
impl TryFrom<u8> for RowKind {
    type Error = Refusal;

    ghost try_from_gives = { λ n r. r ≡ answer (kind_refusal n) (kind_of n) };

    #[tactic(auto, unfolding(crate::specs::Answers::answer, crate::specs::Refusals::kind_refusal, crate::specs::Refusals::unless))]
    fn try_from(n: u8) -> Result<RowKind, Refusal> {
        kind_refusal(n)?;
        Ok(RowKind::or_overlined(n))
    }
}

impl Verdict {
    pub fn number(self) -> u8
        ensures { result ≡ verdict_no self }
    {
        self as u8
    }

    pub fn is_none(self) -> bool
        ensures { result ≡ is_none self }
    {
        self == Verdict::None
    }
}

// Of two numbers the larger.
pub fn larger(a: u8, b: u8) -> u8
    ensures { result ≡ larger a b }
{
    if a <= b { b } else { a }
}
