// A hand-typed move list mended.
ghost use Rattle.std.specs.Prelude.{◌≡◌};
ghost use Rattle.lent.specs.Lists.{list_out};
ghost use Rattle.text.specs.Bytes.{text_refusal};
ghost use Rattle.mending.specs.Mending.{mended_text};
ghost use Rattle.renju.specs.Answers.{list_word};

use super::answer::word;
use mending::write_mended;

// The moves of a comma list that are kept, and the item that slips with its reason: two lines, each ended by byte 10; how long they are.
pub fn renju_mend(text: &[u8], out: &mut [u8]) -> u32
    ensures { (result ≡ list_word 1 (text_refusal text.now) out.old (mended_text text.now))
        × (out.new ≡ list_out (text_refusal text.now) out.old (mended_text text.now)) }
{
    word(write_mended(text, out))
}
