// The listing of a text, laid out in a local buffer, then handed out.
ghost use Rattle.std.specs.Prelude.{◌≡◌};
ghost use Rattle.lent.specs.Lists.{list_out};
ghost use Rattle.display.specs.Answers.{written};
ghost use Rattle.rules.specs.Answers.{refusal_no};
ghost use Rattle.rules.specs.Forbidden.{forbidden_list};
ghost use Rattle.board.specs.Boards.{cells, board_refusal};
ghost use Rattle.report.specs.Listing.{refused_word, count_text, list_text, listing_of};

use super::lines::{count_into, lines_into};
use board::Board;
use lent::{Kept, write_out};
use referee::forbidden_points;
use rules::Refusal;
use text::read_board;

// The listing of a text, written to the front of `out`, and how long it is; 13 where it does not fit. A refusal of the text is in the
// listing.
#[tactic(auto, unfolding(display::specs::Answers::written, rules::specs::Answers::answer))]
pub fn write_listing(text: &[u8], out: &mut [u8]) -> Result<usize, Refusal>
    ensures { (result ≡ written 0 out.old (listing_of text.now))
        × (out.new ≡ list_out 0 out.old (listing_of text.now)) }
{
    let listing = listing_in(text);
    write_out(listing.as_slice(), out)?;
    Ok(listing.len())
}

// In room for 225 lines of 17 bytes, and that of the count.
fn listing_in(text: &[u8]) -> Kept<3840>
    ensures { result ≡ listing_of text.now }
{
    match read_board(text) {
        Ok(board) => board_listing(board),
        Err(refusal) => refused_listing(refusal),
    }
}

#[tactic(auto, unfolding(crate::specs::Listing::refused_word))]
fn refused_listing(refusal: Refusal) -> Kept<3840>
    ensures { result ≡ count_text refused_word (refusal_no refusal) }
{
    let mut text = Kept::new();
    count_into(b"refused ", refusal as u8, &mut text);
    text
}

fn board_listing(board: Board) -> Kept<3840>
    requires { board_refusal board ≡ 0 }
    ensures { result ≡ list_text (forbidden_list (cells board)) }
{
    let mut pairs = [0u8; 450];
    let count = forbidden_points(board, &mut pairs).unwrap_or(0);
    let mut text = Kept::new();
    lines_into(&pairs, count, &mut text);
    count_into(b"forbidden ", count as u8, &mut text);
    text
}
