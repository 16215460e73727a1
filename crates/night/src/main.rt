// The night check: asks both referees every question of the boards on standard input, and says where they differ. A board is a line, as
// stones text or as moves, read as section 7 says.
//
// A line that is refused, an empty one too, is named with the number of its refusal, and a board that differs is named: `line 7 refused 4`,
// `line 8 differs`, counted from 1. The last line has three counts, `boards 9, questions 36136, differ 1`: the lines, refused ones among
// them; the questions that both referees were asked; the boards of which some answer differs.
//
// There is room for 262,143 bytes. Where there are more it says so, and asks nothing.
//
// The file `stdin` beside src/ has the boards of vectors/boards.txt but the empty one, each as it is and in two other views where those
// are other boards; one of a single colour is given as moves, of which a point met again is overwritten. Lines 100 and 200 are refused.
#![tactic(auto)]

mod at_point;
mod on_board;

ghost use Rattle.std.specs.Prelude.{◌≡◌, ◌/◌, ◌%◌, min};
ghost use Rattle.records.specs.Tallies.{total};

use at_point::ask_points;
use board::Board;
use on_board::{ask_forbidden, ask_rows};
use records::{at_most_one, holds, read_records, room, sum};
use rules::Refusal;
use text::read_cells;

// What was counted so far.
#[derive(Clone, Copy, Default)]
struct Tally {
    boards: u64,
    questions: u64,
    differ: u64,
}

fn main(rt: HostRuntime) {
    let mut boards = room();
    let n = read_records(&rt, &mut boards);
    check_all(&rt, &boards[..n]);
}

fn check_all<R: Print>(rt: &R, boards: &[u8]) {
    let mut tally = Tally::default();
    for line in boards.split_inclusive(|&byte| byte == b'\n') {
        tally = check(rt, tally, line.strip_suffix(b"\n").unwrap_or(line));
    }
    let _ = println!(rt;
        "boards {}, questions {}, differ {}",
        tally.boards, tally.questions, tally.differ
    );
}

// One line more: read, asked about, named where there is something to say of it, and counted.
fn check<R: Print>(rt: &R, before: Tally, line: &[u8]) -> Tally {
    let number = sum(before.boards, 1);
    match ask(line) {
        Ok(t) => {
            if t / 65536 != 0 {
                let _ = println!(rt; "line {number} differs");
            }
            counted(before, t)
        }
        Err(refusal) => {
            let _ = println!(rt; "line {number} {refusal}");
            counted(before, 0)
        }
    }
}

// Every question of a line's board.
fn ask(line: &[u8]) -> Result<u32, Refusal> {
    let cells = read_cells(line)?;
    let board = Board::from_cells(&cells)?;
    Ok(ask_all(board, &cells))
}

// They are counted as `records::answer` counts: 4,517 of them.
fn ask_all(board: Board, cells: &[u8]) -> u32 {
    let t = ask_points(0, board, cells);
    let black = ask_rows(t, board, cells, 1);
    let white = ask_rows(black, board, cells, 2);
    ask_forbidden(white, board, cells)
}

// Whether two pages are the same, every byte, behind the lists too. The reference to an array gives its length, which the array itself has
// lost once it was lent.
fn same_page<const N: usize>(page: &[u8; N], other: &[u8; N]) -> bool {
    holds(page, other)
}

// A line's questions are counted with those before.
fn counted(before: Tally, t: u32) -> Tally
    ensures { (result.boards ≡ total before.boards 1) × (result.questions ≡ total before.questions (t % 65536))
        × (result.differ ≡ total before.differ (min (t / 65536) 1)) }
{
    Tally {
        boards: sum(before.boards, 1),
        questions: sum(before.questions, (t % 65536) as u64),
        differ: sum(before.differ, at_most_one(t / 65536)),
    }
}
