// The moves of a comma list that are kept, up to the first item that slips.
ghost use Rattle.std.specs.Prelude.{◌≡◌, ◌≤◌, length};
ghost use Rattle.std.specs.Option.{option_map};
ghost use Rattle.rules.specs.Answers.{answer};
ghost use Rattle.text.specs.Bytes.{text_refusal};
ghost use Rattle.mending.specs.Mending.{once_of, reason_no, unread, slip_behind, mended_with, mended_found};

use lent::{Kept, head};
use rules::Refusal;
use text::{has, read_leading};

// The codes of the moves that are kept, and the item that slips, where one does.
#[derive(Clone, Copy)]
pub struct Mended {
    pub moves: Kept<225>,
    pub slip: Option<Slip>,
}

// An item that slips: its number, from 1, and why.
#[derive(Clone, Copy, Debug, PartialEq, Eq)]
pub struct Slip {
    pub item: u8,
    pub reason: Reason,
}

// Why an item slips: it names a point that is kept already, or it does not read as a point. As a number: 1, or the refusal's.
#[derive(Clone, Copy, Debug, PartialEq, Eq)]
pub enum Reason {
    Repeated,
    Unread(Refusal),
}

impl Reason {
    pub fn number(self) -> u8
        ensures { result ≡ reason_no self }
    {
        match self {
            Reason::Repeated => 1,
            Reason::Unread(refusal) => refusal as u8,
        }
    }
}

// The text of a comma list mended. An item slips where it does not read as a point, and where it names a point that is kept already.
#[tactic(auto, unfolding(rules::specs::Answers::answer))]
pub fn mend_list(text: &[u8]) -> Result<Mended, Refusal>
    ensures { result ≡ answer (text_refusal text.now) (mended_found text.now) }
{
    let found = read_leading(text)?;
    let codes = found.codes.as_slice();
    let n = first_ones(codes);
    if n < codes.len() {
        return Ok(kept_moves(head(codes, n), Some(Reason::Repeated)));
    }
    Ok(kept_moves(codes, unread(found.slip)))
}

// Why the reader refuses an item, where it does.
fn unread(slip: Option<text::Slip>) -> Option<Reason>
    ensures { result ≡ unread (option_map (λ w. w.refusal) slip) }
{
    Some(Reason::Unread(slip?.refusal))
}

// The moves that are kept, and the item behind them, where it slips.
fn kept_moves(moves: &[u8], reason: Option<Reason>) -> Mended
    requires { length moves.now ≤ 225 }
    ensures { result ≡ mended_with moves.now reason }
{
    let mut kept = Kept::new();
    kept.keep(moves);
    Mended {
        moves: kept,
        slip: slip_behind(moves, reason),
    }
}

fn slip_behind(moves: &[u8], reason: Option<Reason>) -> Option<Slip>
    requires { length moves.now ≤ 225 }
    ensures { result ≡ slip_behind moves.now reason }
{
    let reason = reason?;
    Some(Slip {
        item: moves.len() as u8 + 1,
        reason,
    })
}

// How many codes stand before the first that stands among those before it.
fn first_ones(codes: &[u8]) -> usize
    ensures { result ≡ length (once_of codes.now) }
{
    for i in 0..codes.len() {
        if has(head(codes, i), codes[i]) {
            return i;
        }
    }
    codes.len()
}
