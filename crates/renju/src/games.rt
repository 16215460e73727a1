// A whole game refereed, handed in as a list of codes.
ghost use Rattle.std.specs.Prelude.{◌≡◌};
ghost use Rattle.rules.specs.Answers.{answer};
ghost use Rattle.lent.specs.Lists.{list_refusal, list_out};
ghost use Rattle.cells.specs.Cells.{moves_refusal};
ghost use Rattle.game.specs.Game.{reason_no, winner_no, report_of};
ghost use Rattle.game.specs.Answers.{fault_no, fault_reason};
ghost use Rattle.renju.specs.Answers.{word};
ghost use Rattle.renju.specs.Games.{standing, report_bytes, game_bytes};

use super::answer::word;
use cells::moves_cells;
use game::{Fault, GameReport, referee_game};
use lent::{Kept, head, write_out};
use rules::{Player, Refusal};

// The number of the first faulty move, from 1, or 0; to the front of `out` that number, the reason, the winner and the cells.
pub fn renju_game(moves: &[u8], out: &mut [u8]) -> u32
    ensures { (result ≡ word (list_refusal (moves_refusal moves.now) out.old (game_bytes moves.now))
        (report_of moves.now).number)
        × (out.new ≡ list_out (moves_refusal moves.now) out.old (game_bytes moves.now)) }
{
    word(game_out(moves, out))
}

// .. or the refusal.
fn game_out(moves: &[u8], out: &mut [u8]) -> Result<u8, Refusal>
    ensures { (result ≡ answer (list_refusal (moves_refusal moves.now) out.old (game_bytes moves.now))
        (report_of moves.now).number)
        × (out.new ≡ list_out (moves_refusal moves.now) out.old (game_bytes moves.now)) }
{
    let report = referee_game(moves)?;
    let number = fault_number(report.fault);
    let cells = moves_cells(before_fault(moves, number))?;
    write_out(report_bytes(report, cells).as_slice(), out)?;
    Ok(number)
}

// The number of the first faulty move, or 0 for none.
fn fault_number(fault: Option<Fault>) -> u8
    ensures { result ≡ fault_no fault }
{
    match fault {
        Some(fault) => fault.number,
        None => 0,
    }
}

// .. and the number of its reason.
fn reason_number(fault: Option<Fault>) -> u8
    ensures { result ≡ reason_no (fault_reason fault) }
{
    match fault {
        Some(fault) => fault.reason.number(),
        None => 0,
    }
}

// The number of the winner, or 0 for nobody.
fn winner_number(winner: Option<Player>) -> u8
    ensures { result ≡ winner_no winner }
{
    match winner {
        Some(player) => player.number(),
        None => 0,
    }
}

// The moves whose stones are on the report's board: those before the faulty one, or all. Their cells are put one by one; to read the
// board's lines would be to look at all 225.
fn before_fault(moves: &[u8], number: u8) -> &[u8]
    ensures { result.now ≡ standing number moves.now }
{
    if number == 0 {
        return moves;
    }
    head(moves, (number - 1) as usize)
}

// The bytes of a report, with the cells of its board.
fn report_bytes(report: GameReport, cells: [u8; 225]) -> Kept<228>
    ensures { result ≡ report_bytes (fault_no report.fault) (fault_reason report.fault) report.winner cells }
{
    let mut bytes = Kept::new();
    bytes.keep(&[
        fault_number(report.fault),
        reason_number(report.fault),
        winner_number(report.winner),
    ]);
    bytes.keep(&cells);
    bytes
}
