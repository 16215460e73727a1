// What was asked answers a word, as every host function does: the number of the refusal in the high half, or, where there is none, the
// answer.
use lent::head;
use records::{holds, refusal_word, word};
use rules::Refusal;

// Whether a word and a buffer, lent in whole or in part, are as recorded: the number of the wanted bytes and the bytes, or the refusal and
// the buffer as it was.
pub(crate) fn is_told(word: u32, refused: u8, wanted: &[u8], out: &[u8; 600]) -> bool {
    if refused == 0 {
        return (word as usize == wanted.len()) & holds(out, wanted);
    }
    (word == refusal_word(refused)) & holds(out, b"")
}

// Whether a buffer starts with a text.
pub(crate) fn starts_with(out: &[u8; 600], text: &[u8]) -> bool {
    holds(head(out, text.len()), text)
}

// The word of a text that the library writes. None has 65,535 bytes.
pub(crate) fn length_word(answer: Result<usize, Refusal>) -> u32 {
    word(answer.map(|n| n.min(65535) as u16))
}
