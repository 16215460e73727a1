// The word of an answer, as a host function gives it: the number of the refusal in the high half, or, where there is none, the value.
ghost use Rattle.std.specs.Prelude.{◌≡◌, cond, ℕ, ◌*◌};
ghost use Rattle.rules.specs.Numbers.{verdict_no};
ghost use Rattle.records.specs.Answers.{stone_no, word};

use rules::{Player, Refusal, Verdict};

// A value that an answer gives, as a number.
pub trait Value {
    ghost number: { Self → ℕ };

    fn number(self) -> u32
        ensures { result ≡ number self };
}

impl Value for u8 {
    ghost number = { λ n. n };

    fn number(self) -> u32 {
        self as u32
    }
}

impl Value for u16 {
    ghost number = { λ n. n };

    fn number(self) -> u32 {
        self as u32
    }
}

// 1 where the test passes, 0 where it fails.
impl Value for bool {
    ghost number = { λ passed. cond passed 1 0 };

    fn number(self) -> u32 {
        self as u32
    }
}

// The colour of the stone, 0 where the cell is empty.
impl Value for Option<Player> {
    ghost number = { stone_no };

    #[tactic(auto, unfolding(crate::specs::Answers::stone_no))]
    fn number(self) -> u32 {
        match self {
            Some(player) => player as u32,
            None => 0,
        }
    }
}

impl Value for Verdict {
    ghost number = { verdict_no };

    fn number(self) -> u32 {
        self as u32
    }
}

// The word of a refusal; for none, 0, the word of the answer 0.
pub fn refusal_word(number: u8) -> u32
    ensures { result ≡ number * 65536 }
{
    number as u32 * 65536
}

#[tactic(auto, unfolding(crate::specs::Answers::word))]
pub fn word<T: Value>(answer: Result<T, Refusal>) -> u32
    ensures { result ≡ word T.number answer }
{
    match answer {
        Ok(value) => value.number(),
        Err(refusal) => refusal_word(refusal as u8),
    }
}
