// A game's line of report, and the counts, in words.
use super::Tally;
use board::Board;
use display::point_label;
use game::{Fault, Reason};
use referee::forbidden_strict;
use rules::{Player, Refusal};

// `move 9 (H8): forbidden, DoubleThree`: the point is that of the faulty move.
pub(crate) fn say_fault<R: Print>(rt: &R, fault: Fault, board: Board, code: u8) {
    let _ = print!(rt; "move {} (", fault.number);
    let _ = rt.write_all(point_label(code).as_slice());
    let _ = print!(rt; "): ");
    match fault.reason {
        Reason::Occupied => say_line(rt, "occupied"),
        Reason::Forbidden => say_kind(rt, board, code),
        Reason::AfterFive => say_line(rt, "after a five"),
    }
}

fn say_line<R: Print>(rt: &R, words: &str) {
    let _ = println!(rt; "{words}");
}

// The kind is that of the strict verdict on the board handed back, the one before the move.
fn say_kind<R: Print>(rt: &R, board: Board, code: u8) {
    let _ = print!(rt; "forbidden, ");
    match forbidden_strict(board, code) {
        Ok(verdict) => {
            let _ = println!(rt; "{verdict:?}");
        }
        Err(refusal) => say_refused(rt, refusal),
    }
}

pub(crate) fn say_winner<R: Print>(rt: &R, winner: Option<Player>) {
    let name = match winner {
        Some(Player::Black) => "Black",
        Some(Player::White) => "White",
        None => "nobody",
    };
    let _ = println!(rt; "no fault, {name} has won");
}

pub(crate) fn say_refused<R: Print>(rt: &R, refusal: Refusal) {
    let _ = println!(rt; "{refusal}");
}

pub(crate) fn say_tally<R: Print>(rt: &R, tally: Tally) {
    let _ = println!(rt;
        "games {}, faulty {}, refused {}",
        tally.games, tally.faulty, tally.refused
    );
}
