// Numbers with a bound, by their type: what a function takes so needs no test and no clause.
ghost use Rattle.std.specs.Prelude.{◌≡◌, ◌<◌, ℕ, Some, None, cond, ltb};

use std::marker::Model;

// A number below N.
#[derive(Clone, Copy)]
pub struct Below<const N: u8> {
    number: u8,
}

// Clauses see the number.
impl<const N: u8> Model for Below<N> {
    ghost Value = { ℕ };

    ghost view = { λ b. b.number };

    ghost invariant = { λ b. b.number < N };

    ghost inverse = { λ n. record { number = n } };
}

impl<const N: u8> Below<N> {
    pub fn new(number: u8) -> Option<Below<N>>
        ensures { result ≡ cond (ltb number N) (Some number) None }
    {
        if number < N {
            Some(Below { number })
        } else {
            None
        }
    }

    pub fn get(self) -> u8
        ensures value { result ≡ self.entry }
        ensures below { result < N }
    {
        self.number
    }
}

// A point of the board by its code, 15 x + y.
pub type Code = Below<225>;

// A direction by its number, in the order of `Direction`.
pub type Way = Below<4>;

// A stored line by its key.
pub type Key = Below<72>;

// A bit of a mask: a cell of a line, or a window that starts there.
pub type Bit = Below<16>;
