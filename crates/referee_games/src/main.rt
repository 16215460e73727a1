// Referees recorded games: a game is a line of standard input, as moves text (`H8,I9,J10`), and gets a line of report.
//
//     move 9 (H8): forbidden, DoubleThree     its first faulty move; `occupied` and `after a five` name nothing more
//     no fault, Black has won                 or `White has won`, or `nobody has won`
//     refused 4                               the refusal of the text, 1 to 4, or of the moves, 14
//
// The last line has three counts, `games 9, faulty 4, refused 2`: the lines, refused ones among them; those with a faulty move; those refused.
//
// There is room for 262,143 bytes. Where there are more it says so, and referees nothing.
//
// The file `stdin` beside src/ has games with each reason, each kind of forbidden move and each winner, with several reasons at one move,
// with no fault, and lines that are refused.
#![tactic(auto)]

mod words;

ghost use Rattle.std.specs.Prelude.{◌≡◌};
ghost use Rattle.records.specs.Tallies.{total};

use game::referee_game;
use lent::head;
use records::{byte_at, read_records, room, sum};
use rules::Refusal;
use text::read_points;
use words::{say_fault, say_refused, say_tally, say_winner};

// What was counted so far.
#[derive(Clone, Copy)]
pub(crate) struct Tally {
    pub(crate) games: u64,
    pub(crate) faulty: u64,
    pub(crate) refused: u64,
}

fn main(rt: HostRuntime) {
    let mut games = room();
    let n = read_records(&rt, &mut games);
    referee_all(&rt, &games[..n]);
}

fn referee_all<R: Print>(rt: &R, games: &[u8]) {
    let mut tally = Tally {
        games: 0,
        faulty: 0,
        refused: 0,
    };
    for line in games.split_inclusive(|&byte| byte == b'\n') {
        tally = referee_line(rt, tally, line.strip_suffix(b"\n").unwrap_or(line));
    }
    say_tally(rt, tally);
}

// One line more, with its line of report.
fn referee_line<R: Print>(rt: &R, before: Tally, line: &[u8]) -> Tally {
    match report_line(rt, line) {
        Ok(faulty) => counted(before, faulty as u64, 0),
        Err(refusal) => {
            say_refused(rt, refusal);
            counted(before, 0, 1)
        }
    }
}

// A line read, refereed and reported: whether it has a faulty move, or why it is refused. A text has at most 4,097 points.
fn report_line<R: Print>(rt: &R, line: &[u8]) -> Result<bool, Refusal> {
    let mut codes = [0u8; 4097];
    let n = read_points(line, &mut codes)?;
    let moves = head(&codes, n as usize);
    let report = referee_game(moves)?;
    match report.fault {
        Some(fault) => say_fault(
            rt,
            fault,
            report.board,
            byte_at(moves, fault.number.saturating_sub(1) as usize),
        ),
        None => say_winner(rt, report.winner),
    }
    Ok(report.fault.is_some())
}

fn counted(before: Tally, faulty: u64, refused: u64) -> Tally
    ensures { (result.games ≡ total before.games 1) × (result.faulty ≡ total before.faulty faulty)
        × (result.refused ≡ total before.refused refused) }
{
    Tally {
        games: sum(before.games, 1),
        faulty: sum(before.faulty, faulty),
        refused: sum(before.refused, refused),
    }
}
