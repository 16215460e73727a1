// A list is kept item by item in a local buffer, then written to a lent one, whole or refused.
#![tactic(auto, unfolding(crate::specs::Lists::kept, crate::specs::Lists::list_refusal, crate::specs::Lists::list_out, crate::specs::Lists::fits, crate::specs::Lists::laid, rules::specs::Refusals::first, rules::specs::Refusals::unless, rules::specs::Answers::answer))]

ghost use Rattle.std.specs.Prelude.{◌≡◌, ◌≤◌, List, [], ℕ, length, take};
ghost use Rattle.rules.specs.Answers.{answer, checked};
ghost use Rattle.lent.specs.Lists.{kept, list_refusal, list_out};

use rules::Refusal;
use std::marker::Model;

// A list of bytes in a local buffer with room for N, and zeros behind it.
#[derive(Clone, Copy)]
pub struct Kept<const N: usize> {
    bytes: [u8; N],
    len: usize,
}

// Clauses see the list.
impl<const N: usize> Model for Kept<N> {
    ghost use Rattle.std.specs.Prelude.{◌≤◌, List, ℕ, length, take};
    ghost use Rattle.std.proofs.Common.{sym};
    ghost use Rattle.lent.specs.Lists.{padded, Held};

    ghost Value = { List ℕ };

    ghost view = { λ k. take k.len k.bytes };

    ghost invariant = { λ k. (k.len ≤ N) × Held N (take k.len k.bytes) k.bytes k.len };

    ghost inverse = { λ l. record { bytes = padded N l; len = length l } };

    ghost inverse_ok = { λ k h i. record { bytes = sym h.1.buffer i; len = sym h.1.count i } };
}

impl<const N: usize> Kept<N> {
    pub fn new() -> Self
        ensures { result ≡ [] }
    {
        Kept {
            bytes: [0; N],
            len: 0,
        }
    }

    // An item put at the end; none where there is no room for all of it.
    pub fn keep(&mut self, item: &[u8])
        ensures { self.new ≡ kept N self.old item.now }
    {
        // not `self.len + item.len() <= N`: that sum could wrap
        if item.len() > N - self.len {
            return;
        }
        let end = self.len + item.len();
        let room = &mut self.bytes[..];
        lay(item, &mut room[self.len..end]);
        self.len = end;
    }

    pub fn len(&self) -> usize
        ensures value { result ≡ length self.now }
        ensures fits { result ≤ N }
    {
        self.len
    }

    pub fn as_slice(&self) -> &[u8]
        ensures value { result.now ≡ self.now }
        ensures fits { length result.now ≤ N }
    {
        &self.bytes[..self.len]
    }
}

// An item laid in room of its length, byte by byte. `copy_from_slice` would read an item of two bytes back as one number while both stores are
// under way, and the processor would wait for them.
fn lay(item: &[u8], room: &mut [u8])
    requires { length room.old ≡ length item.now }
    ensures { room.new ≡ item.now }
{
    for i in 0..item.len() {
        room[i] = item[i];
    }
}

// A list written to the front of `out`; NoRoom where it does not fit, and nothing is written.
pub fn write_out(list: &[u8], out: &mut [u8]) -> Result<(), Refusal>
    ensures { (result ≡ checked (list_refusal 0 out.old list.now))
        × (out.new ≡ list_out 0 out.old list.now) }
{
    if list.len() > out.len() {
        return Err(Refusal::NoRoom);
    }
    out[..list.len()].copy_from_slice(list);
    Ok(())
}

// .. and how many items it has.
pub fn hand_out(list: &[u8], count: u16, out: &mut [u8]) -> Result<u16, Refusal>
    ensures { (result ≡ answer (list_refusal 0 out.old list.now) count)
        × (out.new ≡ list_out 0 out.old list.now) }
{
    write_out(list, out)?;
    Ok(count)
}
