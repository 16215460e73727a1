// The strict verdict of cell bytes with the lines on which it was asked, for whoever asks further there.
ghost use Rattle.std.specs.Prelude.{◌≡◌, cond, Option, Some, None};
ghost use Rattle.rules.specs.Answers.{answer};
ghost use Rattle.grid.specs.Lines.{lines_of};
ghost use Rattle.cells.specs.Cells.{Cells, cells_refusal_at};
ghost use Rattle.referee.specs.Answers.{is_tried, ruling_of};

use super::cycle::strict_by;
use super::single::{lines_if, may_forbid, rows_of};
use cells::cells_refusal_at;
use near::more_than_one;
use point::Table;
use rules::{Code, Refusal, Verdict};

// A verdict, and where a stone may have been tried for it the stored lines.
#[derive(Clone, Copy)]
pub struct Ruling {
    pub verdict: Verdict,
    pub lines: Option<[u16; 144]>,
}

// .. at a point. The verdict alone is faster by `forbidden_strict_of`, which hands no lines over.
#[tactic(auto, unfolding(rules::specs::Answers::answer))]
pub fn ruling_of(cells: &[u8], code: u8) -> Result<Ruling, Refusal>
    ensures { result ≡ answer (cells_refusal_at cells.now code) (ruling_of cells.now code) }
{
    cells_refusal_at(cells, code)?;
    Ok(ruled_of(cells, Code::new(code).unwrap()))
}

// .. of the cells of a board.
#[tactic(auto, unfolding(crate::specs::Answers::ruling_of))]
fn ruled_of(cells: &[u8], code: Code) -> Ruling
    requires { Cells cells.now }
    ensures { result ≡ ruling_of cells.now code }
{
    let p = code.get();
    if cells[p as usize] != 0 {
        return untried();
    }
    let rows = rows_of(cells, code);
    if may_forbid(rows) {
        let table = Table::new();
        let tried = more_than_one(rows.twos);
        let mut lines = lines_if(tried, cells, &table);
        let verdict = strict_by(&mut lines, &table, code, rows);
        return Ruling {
            verdict,
            lines: handed_on(tried, lines),
        };
    }
    untried()
}

// The lines, where a stone may have been tried on them.
fn handed_on(tried: bool, lines: [u16; 144]) -> Option<[u16; 144]>
    ensures { result ≡ cond tried (Some lines) None }
{
    if tried { Some(lines) } else { None }
}

// No kind, and no stone was tried.
fn untried() -> Ruling
    ensures { (result.verdict ≡ Verdict.None) × (result.lines ≡ None) }
{
    Ruling {
        verdict: Verdict::None,
        lines: None,
    }
}
