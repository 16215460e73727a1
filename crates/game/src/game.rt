// A game read move by move. One board, in place for the whole game: each stone is added to the lines that the next move is judged on.
ghost use Rattle.std.specs.Prelude.{◌≡◌};
ghost use Rattle.cells.specs.Cells.{moves_refusal};
ghost use Rattle.game.specs.Game.{report_of};
ghost use Rattle.game.specs.Answers.{reported, game_report};

use super::report::{Fault, GameReport};
use super::turn::{put_unless, said_on};
use cells::moves_refusal;
use point::Table;
use rules::{Code, Player, Refusal};

// The report of a game: its first faulty move, or its winner, and the board; 14 for more than 225 moves, then 8 for a code over 224
// anywhere among them, before anything is read.
#[tactic(auto, unfolding(rules::specs::Answers::answer, crate::specs::Answers::game_report))]
pub fn referee_game(moves: &[u8]) -> Result<GameReport, Refusal>
    ensures { result ≡ game_report (moves_refusal moves.now) (report_of moves.now) }
{
    moves_refusal(moves)?;
    Ok(read_game(moves))
}

// "play stops at the fault, and the board handed back is the one before it"
fn read_game(moves: &[u8]) -> GameReport
    requires { moves_refusal moves.now ≡ 0 }
    ensures { result ≡ reported (report_of moves.now) }
{
    let table = Table::new();
    let mut lines = [0u16; 144];
    let mut player = Player::Black;
    let mut won = None;
    for i in 0..moves.len() {
        let code = Code::new(moves[i]).unwrap();
        let said = said_on(&lines, &table, code, player, won);
        let fault = said.reason.is_some();
        put_unless(fault, &mut lines, &table, code, player);
        if let Some(reason) = said.reason {
            let number = (i + 1) as u8;
            return GameReport::with(Some(Fault { number, reason }), None, lines);
        }
        won = said.five.then_some(player);
        player = player.opponent();
    }
    GameReport::with(None, won, lines)
}
