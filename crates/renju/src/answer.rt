// The one number that every function answers, from the answers of the crates below.
ghost use Rattle.std.specs.Prelude.{◌≡◌, ℕ, ◌*◌};
ghost use Rattle.rules.specs.Numbers.{verdict_no};
ghost use Rattle.rules.specs.Bit.{digit};
ghost use Rattle.rules.specs.Answers.{refusal_no};
ghost use Rattle.renju.specs.Answers.{word_of};

use rules::{Refusal, Verdict};

// What a function answers, as the number that stands in the low half: 0 for nothing, 1 for a test that passes.
pub(crate) trait Low {
    ghost low: { Self → ℕ };

    fn low(self) -> u16
        ensures { result ≡ low self };
}

impl Low for () {
    ghost low = { λ _. 0 };

    fn low(self) -> u16 {
        0
    }
}

impl Low for u8 {
    ghost low = { λ n. n };

    fn low(self) -> u16 {
        self as u16
    }
}

impl Low for u16 {
    ghost low = { λ n. n };

    fn low(self) -> u16 {
        self
    }
}

impl Low for bool {
    ghost low = { digit };

    fn low(self) -> u16 {
        self as u16
    }
}

impl Low for Verdict {
    ghost low = { verdict_no };

    fn low(self) -> u16 {
        self as u16
    }
}

// A refusal in the high half, or, where there is none, an answer in the low.
#[tactic(auto, unfolding(crate::specs::Answers::word_of))]
pub(crate) fn word<T: Low>(answer: Result<T, Refusal>) -> u32
    ensures { result ≡ word_of T.low answer }
{
    match answer {
        Ok(value) => value.low() as u32,
        Err(refusal) => refused(refusal),
    }
}

pub(crate) fn refused(refusal: Refusal) -> u32
    ensures { result ≡ refusal_no refusal * 65536 }
{
    refusal as u32 * 65536
}
