// One view after another, and the view that takes a view back.
ghost use Rattle.std.specs.Prelude.{◌≡◌};
ghost use Rattle.rules.specs.Refusals.{first as first_refusal, view_refusal};
ghost use Rattle.rules.specs.Views.{undo, then_view};
ghost use Rattle.renju.specs.Answers.{word};

// The view that equals the first followed by the second.
#[unsafe(no_mangle)]
pub extern "C" fn renju_view_then(first: u8, second: u8) -> u32
    ensures { result ≡ word (first_refusal (view_refusal first) (view_refusal second)) (then_view first second) }
{
    renju::renju_view_then(first, second)
}

// The view that takes a view back.
#[unsafe(no_mangle)]
pub extern "C" fn renju_view_back(view: u8) -> u32
    ensures { result ≡ word (view_refusal view) (undo view) }
{
    renju::renju_view_back(view)
}
