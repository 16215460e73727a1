// The masks of `masks` in 64 places: bit k is the window, the row or the cell at place k, for all four lines at once.
ghost use Rattle.std.specs.Prelude.{◌≡◌, not, ◌&&◌, ◌+◌};
ghost use Rattle.rules.specs.Bit.{bit, mask_of};
ghost use Rattle.rules.specs.Line.{free, count, beside};
ghost use Rattle.masks.specs.Masks.{Tallied};
ghost use Rattle.near.specs.Windows.{alive_with, free_with, pair_in};

// The windows that are alive and hold two, three or four own stones; and those that are free and hold four, dead or not.
#[derive(Clone, Copy)]
pub(crate) struct Windows {
    pub(crate) twos: u64,
    pub(crate) threes: u64,
    pub(crate) fours: u64,
    pub(crate) overs: u64,
}

#[derive(Clone, Copy)]
struct Digits {
    ones: u64,
    twos: u64,
    fours: u64,
}

// "A window at j is cells j to j+4, with j+5 at most the line's size. It is free for a colour when it has no stone of the other." What is
// off the line is blocked too.
fn free_windows(blocked: u64) -> u64
    ensures { result ≡ mask_of 64 (free (bit blocked)) }
{
    !(blocked | blocked >> 1 | blocked >> 2 | blocked >> 3 | blocked >> 4)
}

// "for Black also if a black stone stands at j−1 or j+5"
fn beside_windows(own: u64, black: bool) -> u64
    ensures { result ≡ mask_of 64 (λ k. black && beside (bit own) k) }
{
    if black { own << 1 | own >> 5 } else { 0 }
}

// How many own stones each window holds, in binary digits: a full adder on its first three cells, a half adder on its last two, then the
// carries.
fn tally(own: u64) -> Digits
    ensures { Tallied 64 (count (bit own)) result.ones result.twos result.fours }
{
    let s1 = own ^ own >> 1 ^ own >> 2;
    let c1 = own & own >> 1 | own >> 2 & (own ^ own >> 1);
    let s2 = own >> 3 ^ own >> 4;
    let c2 = own >> 3 & own >> 4;
    let c3 = s1 & s2;
    Digits {
        ones: s1 ^ s2,
        twos: c1 ^ c2 ^ c3,
        fours: c1 & c2 | c3 & (c1 ^ c2),
    }
}

// "It is dead if not free, and for Black also if a black stone stands at j−1 or j+5. Its score is its count of own stones"
pub(crate) fn windows_of(own: u64, blocked: u64, black: bool) -> Windows
    ensures { (result.twos ≡ mask_of 64 (alive_with black (bit own) (bit blocked) 2))
        × (result.threes ≡ mask_of 64 (alive_with black (bit own) (bit blocked) 3))
        × (result.fours ≡ mask_of 64 (alive_with black (bit own) (bit blocked) 4))
        × (result.overs ≡ mask_of 64 (free_with (bit own) (bit blocked) 4)) }
{
    let free = free_windows(blocked);
    let alive = free & !beside_windows(own, black);
    let n = tally(own);
    Windows {
        twos: alive & n.twos & !n.ones,
        threes: alive & n.twos & n.ones,
        fours: alive & n.fours & !n.ones,
        overs: free & n.fours & !n.ones,
    }
}

// "Two, Three, Straight at j: windows j−1 and j both score 2, 3, 4 and cell j+4 is empty." (A free window has no other stone there.)
pub(crate) fn open_rows(scored: u64, own: u64) -> u64
    ensures { result ≡ mask_of 64 (λ k. pair_in scored k && not (bit own (k + 4))) }
{
    scored & scored << 1 & !(own >> 4)
}

// "Overlining, Overlined at j: windows j−1 and j are both free and both hold 4, or both 5, counted without the dead rule."
pub(crate) fn over_rows(held: u64) -> u64
    ensures { result ≡ mask_of 64 (pair_in held) }
{
    held & held << 1
}
