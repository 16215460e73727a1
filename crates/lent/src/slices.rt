// Parts of a lent slice, and the place of a byte in it. Each is total: a number past the end means the end.
ghost use Rattle.std.specs.Prelude.{◌≡◌, take, drop};
ghost use Rattle.lent.specs.Slices.{find_at};

// The first n bytes, or all.
pub fn head(s: &[u8], n: usize) -> &[u8]
    ensures { result.now ≡ take n s.now }
{
    &s[..n.min(s.len())]
}

// What is behind the first n bytes.
pub fn tail(s: &[u8], n: usize) -> &[u8]
    ensures { result.now ≡ drop n s.now }
{
    &s[n.min(s.len())..]
}

// The place of the first d, or the length.
pub fn find(s: &[u8], d: u8) -> usize
    ensures { result ≡ find_at d s.now }
{
    for i in 0..s.len() {
        if s[i] == d {
            return i;
        }
    }
    s.len()
}
