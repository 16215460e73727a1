// Why a question is not answered: section 2's refusals, and those of document 02 from 14 on. As a number: 1 to 22, in this order.
#![tactic(auto, unfolding(crate::specs::Answers::answer, crate::specs::Refusals::colour_refusal, crate::specs::Refusals::unless, crate::specs::Refusals::kind_refusal))]

ghost use Rattle.std.specs.Prelude.{◌≡◌};
ghost use Rattle.rules.specs.Refusals.{colour_refusal, kind_refusal};
ghost use Rattle.rules.specs.Answers.{refused_by, checked};

use super::is_colour;
use std::error::Error;
use std::fmt;

#[derive(Clone, Copy, Debug, PartialEq, Eq)]
pub enum Refusal {
    TextLong = 1,
    TextHigh = 2,
    NoColumn = 3,
    NoRow = 4,
    OverLength = 5,
    WrongCount = 6,
    WrongSize = 7,
    NoPoint = 8,
    Unsound = 9,
    NoPlace = 10,
    Occupied = 11,
    NoNumber = 12,
    NoRoom = 13,
    ManyMoves = 14,
    Malformed = 15,
    TurnedView = 16,
    ForeignGame = 17,
    NotNext = 18,
    ApartLists = 19,
    OutsideSubset = 20,
    NoLimit = 21,
    OneSided = 22,
}

// As programs say it.
impl fmt::Display for Refusal {
    fn fmt<W: fmt::Write>(&self, f: &mut fmt::Formatter<W>) -> fmt::Result {
        write!(f, "refused {}", *self as u8)
    }
}

impl Error for Refusal {}

// The refusal, unless the test passed. A number may stand for it as well.
pub fn unless<R: Copy>(passed: bool, refusal: R) -> Result<(), R>
    ensures { result ≡ refused_by passed refusal }
{
    if passed { Ok(()) } else { Err(refusal) }
}

// NoNumber for a number that is no colour's.
pub fn colour_refusal(colour: u8) -> Result<(), Refusal>
    ensures { result ≡ checked (colour_refusal colour) }
{
    unless(is_colour(colour), Refusal::NoNumber)
}

// NoNumber for a number that is no row kind's.
pub fn kind_refusal(kind: u8) -> Result<(), Refusal>
    ensures { result ≡ checked (kind_refusal kind) }
{
    unless(kind <= 7, Refusal::NoNumber)
}
