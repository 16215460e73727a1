// The keys of the 72 stored lines, and the lines of the keys: `line_key` and `line_from_key` of grid.rs.
#![tactic(auto, unfolding(rules::specs::Point::key_of, rules::specs::Point::key_dir, rules::specs::Point::key_no, rules::specs::Point::key_size, rules::specs::Answers::answer, crate::specs::Answers::stored_key, rules::specs::Refusals::unless, rules::specs::Refusals::key_refusal, rules::specs::Refusals::first, rules::specs::Refusals::line_no_refusal))]

ghost use Rattle.std.specs.Prelude.{◌≡◌, ◌≤◌};
ghost use Rattle.rules.specs.Point.{key_of, key_dir, key_no, key_size};
ghost use Rattle.point.specs.Answers.{stored_key};
ghost use Rattle.point.specs.Points.{index_of};
ghost use Rattle.rules.specs.Refusals.{line_no_refusal, key_refusal};
ghost use Rattle.rules.specs.Answers.{answer, checked};

use super::index::{Index, direction_refusal};
use super::lines::{by_direction, is_stored, line_count, line_size};
use rules::{Refusal, unless};

// The key of a stored line.
pub(crate) fn key_of(d: u8, i: u8) -> u8
    requires { i ≤ 200 }
    ensures { result ≡ key_of d i }
{
    by_direction(d, i, 15 + i, 26 + i, 47 + i)
}

// The direction of a key's line; every key over 71, which no line has, is counted on from the descending ones. (`line_from_key`, as in the
// Rust, gives direction and number together, and refuses.)
pub fn key_direction(key: u8) -> u8
    ensures { result ≡ key_dir key }
{
    match key {
        0..=14 => 0,
        15..=29 => 1,
        30..=50 => 2,
        _ => 3,
    }
}

// The number of a key's line, counted on past key 71 in the same way: a number over 24 is no stored line's.
pub fn key_no(key: u8) -> u8
    ensures { result ≡ key_no key }
{
    match key {
        0..=14 => key,
        15..=29 => key - 15,
        30..=50 => key - 26,
        _ => key - 47,
    }
}

// How many cells the line with that direction and number has: of keys over 71, diagonals that are not stored (72 to 75), then none.
pub fn key_size(key: u8) -> u8
    ensures { result ≡ key_size key }
{
    line_size(key_direction(key), key_no(key))
}

// The key of a line: none for a diagonal too short to be stored. Refused 12 for a direction over 3, 10 for a line that does not exist.
pub fn line_key(d: u8, i: u8) -> Result<Option<u8>, Refusal>
    ensures { result ≡ answer (line_no_refusal d i) (stored_key d i) }
{
    line_refusal(d, i)?;
    if is_stored(d, i) {
        Ok(Some(key_of(d, i)))
    } else {
        Ok(None)
    }
}

// The line of a key, as the index of its cell 0. Refused 10 for a key over 71.
pub fn line_from_key(key: u8) -> Result<Index, Refusal>
    ensures { result ≡ answer (key_refusal key) (index_of (key_dir key) (key_no key) 0) }
{
    key_refusal(key)?;
    Ok(Index {
        d: key_direction(key),
        i: key_no(key),
        j: 0,
    })
}

// NoPlace for a key over 71.
pub fn key_refusal(key: u8) -> Result<(), Refusal>
    ensures { result ≡ checked (key_refusal key) }
{
    unless(key < 72, Refusal::NoPlace)
}

// NoNumber for the direction, then NoPlace for the number.
pub(crate) fn line_refusal(d: u8, i: u8) -> Result<(), Refusal>
    ensures { result ≡ checked (line_no_refusal d i) }
{
    direction_refusal(d)?;
    unless(i < line_count(d), Refusal::NoPlace)
}
