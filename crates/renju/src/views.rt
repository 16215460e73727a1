// One view after another, and the view that takes a view back.
ghost use Rattle.std.specs.Prelude.{◌≡◌};
ghost use Rattle.rules.specs.Refusals.{first as first_refusal, view_refusal};
ghost use Rattle.rules.specs.Views.{undo, then_view};
ghost use Rattle.renju.specs.Answers.{word};

use super::answer::word;
use point::{view_back, view_then};

// The view that equals the first followed by the second.
pub fn renju_view_then(first: u8, second: u8) -> u32
    ensures { result ≡ word (first_refusal (view_refusal first) (view_refusal second)) (then_view first second) }
{
    word(view_then(first, second))
}

// The view that takes a view back.
pub fn renju_view_back(view: u8) -> u32
    ensures { result ≡ word (view_refusal view) (undo view) }
{
    word(view_back(view))
}
