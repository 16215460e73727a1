// The lists and the cells that a record has, as bytes, and whether a lent buffer has such bytes.
ghost use Rattle.std.specs.Prelude.{◌≡◌, ◌≤◌, eqb, length, set};
ghost use Rattle.rules.specs.Tools.{tab, all_below};
ghost use Rattle.records.specs.Records.{byte_at};
ghost use Rattle.records.specs.Bytes.{bytes_in, spelled_at, cell_in, form_fits, has_form, wanted_at, holds_bytes};

use super::{byte, byte_at};

// How many bytes digits spell. No list or text has more than 4,096.
pub fn bytes_in(digits: &[u8]) -> usize
    ensures { result ≡ bytes_in digits.now }
{
    (digits.len() / 2).min(4096)
}

// The bytes that digits spell, and behind them spaces, one byte more than a text may have. The length, which the table gives too, is what
// lending the array as a slice needs.
pub fn bytes_of(digits: &[u8]) -> [u8; 4097]
    ensures { (4097 ≡ length result) × (result ≡ tab 4097 (spelled_at digits.now)) }
{
    let mut bytes = [b' '; 4097];
    for i in 0..4097 {
        bytes[i] = spelled_at(digits, i);
    }
    bytes
}

#[tactic(auto, unfolding(crate::specs::Bytes::spelled_at))]
fn spelled_at(digits: &[u8], i: usize) -> u8
    ensures { result ≡ spelled_at digits.now i }
{
    if i < bytes_in(digits) {
        byte(digits, 2 * i)
    } else {
        b' '
    }
}

// The cell bytes of a field.
pub fn cells_of(field: &[u8]) -> [u8; 225]
    ensures { (225 ≡ length result) × (result ≡ tab 225 (cell_in field.now)) }
{
    let mut cells = [0u8; 225];
    for i in 0..225 {
        cells[i] = cell_in(field, i);
    }
    cells
}

// 3, which is no cell byte, where the field is not well formed.
#[tactic(auto, unfolding(crate::specs::Bytes::cell_in, crate::specs::Bytes::cell_byte))]
fn cell_in(field: &[u8], i: usize) -> u8
    ensures { result ≡ cell_in field.now i }
{
    if field.len() != 225 {
        return 3;
    }
    match byte_at(field, i) {
        b'.' => 0,
        b'o' => 1,
        b'x' => 2,
        _ => 3,
    }
}

// The cells with another value at a point. With the value 3 they are no board's.
pub fn with_cell(cells: [u8; 225], code: u8, value: u8) -> [u8; 225]
    ensures { (225 ≡ length result) × (result ≡ set cells code value) }
{
    let mut changed = cells;
    if code < 225 {
        changed[code as usize] = value;
    }
    changed
}

// Whether spaces stand where the form has them, and hex digits elsewhere, behind the form too.
pub fn has_form(s: &[u8], form: &[u8]) -> bool
    ensures { result ≡ has_form s.now form.now }
{
    if s.len() < form.len() {
        return false;
    }
    for i in 0..s.len() {
        if !fits(s[i], byte_at(form, i)) {
            return false;
        }
    }
    true
}

#[tactic(auto, unfolding(crate::specs::Bytes::form_fits))]
fn fits(b: u8, wanted: u8) -> bool
    ensures { result ≡ form_fits b wanted }
{
    if wanted == b' ' {
        return b == b' ';
    }
    matches!(b, b'0'..=b'9' | b'a'..=b'f')
}

// Whether a buffer that was lent full of 255 has the wanted bytes in front, and 255 behind them. No answer has that byte: a text's are
// below 128, a code is below 225, a cell below 3, a verdict below 4, a key below 72, a start below 16, and a window's mask has seven bits.
pub fn holds(page: &[u8], wanted: &[u8]) -> bool
    ensures { result ≡ holds_bytes page.now wanted.now }
{
    let n = wanted.len().min(page.len());
    begins(page, wanted, n) && is_unused(&page[n..])
}

// Whether the first n bytes are as wanted.
fn begins(page: &[u8], wanted: &[u8], n: usize) -> bool
    requires { (n ≤ length page.now) × (n ≤ length wanted.now) }
    ensures { result ≡ all_below n (λ i. eqb (byte_at page.now i) (wanted_at wanted.now i)) }
{
    for i in 0..n {
        if page[i] != wanted[i] {
            return false;
        }
    }
    true
}

// Whether every byte is 255. No byte ends the loop, so that many are compared at once: most of a page is unused.
fn is_unused(rest: &[u8]) -> bool
    ensures { result ≡ all_below (length rest.now) (λ i. eqb (byte_at rest.now i) 255) }
{
    let mut all = true;
    for &byte in rest {
        all &= byte == 255;
    }
    all
}
