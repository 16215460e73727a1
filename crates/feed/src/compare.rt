// Two held lists compared as plain bytes: which is longer, and what the shorter lacks of it.
ghost use Rattle.std.specs.Prelude.{◌≡◌, ◌≤◌, IsTrue, length};
ghost use Rattle.rules.specs.Answers.{answer, checked};
ghost use Rattle.feed.specs.Compare.{begins, longer_of, missing_refusal, missing_part, missing_place};

use rules::{Refusal, unless};

// Whether the first list begins the second.
#[tactic(auto, using(crate::proofs::Begins::begins_starts))]
fn begins(short: &[u8], long: &[u8]) -> bool
    ensures value { result ≡ begins short.now long.now }
    ensures fits { IsTrue result → length short.now ≤ length long.now }
{
    long.starts_with(short)
}

// ApartLists for lists where neither begins the other.
#[tactic(auto, unfolding(rules::specs::Answers::answer, rules::specs::Refusals::unless, crate::specs::Compare::missing_refusal))]
pub fn missing_refusal(first: &[u8], second: &[u8]) -> Result<(), Refusal>
    ensures { result ≡ checked (missing_refusal first.now second.now) }
{
    unless(
        begins(first, second) || begins(second, first),
        Refusal::ApartLists,
    )
}

// What the shorter list lacks of the longer, as the caller's own part of that; the empty end of the first where the lists are equal, and where
// `missing_refusal` gives ApartLists.
#[tactic(auto, unfolding(crate::specs::Compare::missing_part, crate::specs::Compare::missing_place, crate::specs::Compare::behind))]
pub fn missing<'a>(first: &'a [u8], second: &'a [u8]) -> &'a [u8]
    ensures { (result.now ≡ missing_part first.now second.now)
        × (result.ref_ptr ≡ missing_place first.entry second.entry) }
{
    if begins(second, first) {
        return &first[second.len()..];
    }
    if begins(first, second) {
        return &second[first.len()..];
    }
    &first[first.len()..]
}

// Which list is longer, where one begins the other: 0 for neither, 1 for the first, 2 for the second.
#[tactic(auto, unfolding(rules::specs::Answers::answer))]
pub fn longer(first: &[u8], second: &[u8]) -> Result<u8, Refusal>
    ensures { result ≡ answer (missing_refusal first.now second.now) (longer_of first.now second.now) }
{
    missing_refusal(first, second)?;
    Ok(longer_of(first, second))
}

#[tactic(auto, unfolding(crate::specs::Compare::longer_of))]
fn longer_of(first: &[u8], second: &[u8]) -> u8
    ensures { result ≡ longer_of first.now second.now }
{
    if first.len() == second.len() {
        return 0;
    }
    if second.len() < first.len() { 1 } else { 2 }
}
