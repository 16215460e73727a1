// The verdict at one point of 225 cell bytes: 0 none, 1 double three, 2 double four, 3 overline.
ghost use Rattle.std.specs.Prelude.{◌≡◌};
ghost use Rattle.rules.specs.Numbers.{verdict_no};
ghost use Rattle.rules.specs.Forbidden.{plain_of, strict_of};
ghost use Rattle.cells.specs.Cells.{cells_refusal_at};
ghost use Rattle.referee.specs.Answers.{forbidden_refusal};
ghost use Rattle.renju.specs.Answers.{word, refusal_of};

// The plain verdict, at an empty point.
#[unsafe(no_mangle)]
pub extern "C" fn renju_forbidden(cells: &[u8], code: u8) -> u32
    ensures { result ≡ word (refusal_of cells.now (λ b. forbidden_refusal b code))
        (verdict_no (plain_of cells.now code)) }
{
    renju::renju_forbidden(cells, code)
}

// The strict verdict: none at an occupied point, and where the stone completes a five.
#[unsafe(no_mangle)]
pub extern "C" fn renju_forbidden_strict(cells: &[u8], code: u8) -> u32
    ensures { result ≡ word (cells_refusal_at cells.now code) (verdict_no (strict_of cells.now code)) }
{
    renju::renju_forbidden_strict(cells, code)
}
