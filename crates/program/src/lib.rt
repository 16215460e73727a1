// What the programs share that read standard input whole and write what they make of it: room for a text, the reading, whether the input was
// read to its end, what is said, and the words of the command line. A program's exit status says nothing of this; the scripts of the root
// read what it says.
#![tactic(auto)]

ghost use Rattle.std.specs.Prelude.{◌≡◌, true, ◌<◌, ◌≤◌, T, length, take};

use lent::head;
use std::env::FillError;
use std::io::Read;
use std::rt::Env;

// A byte more than a text may have: what is longer is refused by its length alone, whatever follows. The `ensures` gives the length, which
// lending the array as a slice needs.
pub fn text_room() -> [u8; 4097]
    ensures { 4097 ≡ length result }
{
    [0; 4097]
}

// Reads standard input until the room is full, the input ends or a read fails: so many bytes stand at the start of the room.
pub fn read_full<R: Input>(rt: &R, room: &mut [u8]) -> usize
    ensures in_bounds { result ≤ length room.new }
    ensures taken { result ≡ length (take result room.new) }
{
    let mut input = rt.reader();
    let mut done = 0;
    // stays: each turn reads as many bytes as there are
    while done < room.len() {
        match input.read(&mut room[done..]) {
            Ok(0) | Err(_) => break,
            Ok(n) => done += n,
        }
    }
    done
}

// Whether reading stopped before the room was full though standard input is not at its end: then it has failed.
pub fn is_cut_short<R: Input>(rt: &R, read: usize, room: usize) -> bool
    ensures { T result → read < room }
{
    if read < room {
        let mut byte = [0u8; 1];
        return match rt.reader().read(&mut byte) {
            Ok(n) => n != 0,
            Err(_) => true,
        };
    }
    false
}

// Bytes on standard output; words on standard error where that fails.
pub fn write<R: Print + Eprint>(rt: &R, bytes: &[u8], failed: &str) {
    if rt.write_all(bytes).is_err() {
        say(rt, failed);
    }
}

// `refused N`, on a line of standard error.
pub fn refuse<R: Eprint>(rt: &R, number: u8) {
    let _ = eprintln!(rt; "refused {number}");
}

// .. of standard output, where a program writes its refusals there.
pub fn refuse_on_output<R: Print>(rt: &R, number: u8) {
    let _ = println!(rt; "refused {number}");
}

// On standard error.
pub fn say<R: Eprint>(rt: &R, words: &str) {
    let _ = rt.eprint(words);
}

// How many words the command line has. The program's own name is counted too.
pub fn word_count<R: Env>(rt: &R) -> usize {
    for number in 0..usize::MAX {
        if !has_word(rt, number) {
            return number;
        }
    }
    usize::MAX
}

fn has_word<R: Env>(rt: &R, number: usize) -> bool {
    let mut word = [0u8; 8];
    !matches!(rt.arg(number, &mut word), Err(FillError::NotPresent))
}

// Whether an argument is this word, of at most eight bytes. One that does not fit is another.
pub fn is_word<R: Env>(rt: &R, number: usize, wanted: &[u8]) -> bool
    ensures { result ≡ true → length wanted.now ≤ 8 }
{
    let mut word = [0u8; 8];
    match rt.arg(number, &mut word) {
        Ok(n) => *head(&word, n) == *wanted,
        Err(_) => false,
    }
}
