// How deep the strict question at one point of 225 cell bytes goes, with its verdict.
ghost use Rattle.std.specs.Prelude.{◌≡◌, ◌+◌, ◌*◌};
ghost use Rattle.rules.specs.Numbers.{verdict_no};
ghost use Rattle.rules.specs.Answers.{answer};
ghost use Rattle.rules.specs.Forbidden.{strict_of};
ghost use Rattle.rules.specs.Depth.{depth_of};
ghost use Rattle.cells.specs.Cells.{cells_refusal_at};
ghost use Rattle.renju.specs.Answers.{word};

use super::answer::word;
use depth::strict_depth_of;
use rules::Refusal;

// "256 times the depth plus the strict verdict". The verdict is the fast referee's, which asks for no depth.
pub fn renju_depth(cells: &[u8], code: u8) -> u32
    ensures { result ≡ word (cells_refusal_at cells.now code)
        (256 * depth_of cells.now code + verdict_no (strict_of cells.now code)) }
{
    word(depth_and_verdict(cells, code))
}

// Two bytes fit the low half, whatever they are.
fn depth_and_verdict(cells: &[u8], code: u8) -> Result<u16, Refusal>
    ensures { result ≡ answer (cells_refusal_at cells.now code)
        (256 * depth_of cells.now code + verdict_no (strict_of cells.now code)) }
{
    let asked = strict_depth_of(cells, code)?;
    Ok(256 * asked.depth as u16 + asked.verdict.number() as u16)
}
