// Games as SGF text: written, and read.
ghost use Rattle.std.specs.Prelude.{◌≡◌};
ghost use Rattle.lent.specs.Lists.{list_out};
ghost use Rattle.cells.specs.Cells.{moves_refusal};
ghost use Rattle.sgf.specs.Games.{sgf_text, sgf_refusal, sgf_moves};
ghost use Rattle.renju.specs.Answers.{list_word};

use super::answer::word;
use sgf::{from_sgf, to_sgf};

// The SGF text of a game's moves: how many bytes it has.
pub fn renju_to_sgf(moves: &[u8], out: &mut [u8]) -> u32
    ensures { (result ≡ list_word 1 (moves_refusal moves.now) out.old (sgf_text moves.now))
        × (out.new ≡ list_out (moves_refusal moves.now) out.old (sgf_text moves.now)) }
{
    word(to_sgf(moves, out))
}

// The moves of an SGF text: how many they are.
pub fn renju_from_sgf(text: &[u8], out: &mut [u8]) -> u32
    ensures { (result ≡ list_word 1 (sgf_refusal text.now) out.old (sgf_moves text.now))
        × (out.new ≡ list_out (sgf_refusal text.now) out.old (sgf_moves text.now)) }
{
    word(from_sgf(text, out))
}
