// Keys: how section 4's lists name lines. "Keys: vertical 0 to 14, horizontal 15 to 29, ascending 30 to 50, descending 51 to 71."
ghost use Rattle.std.specs.Prelude.{◌≡◌, ◌<◌};
ghost use Rattle.rules.specs.Point.{code_of, line_no, key_of, key_dir, key_point};

use super::line::by_direction;
use rules::{Code, Key, Way};

// The key of the line through a point. "Ascending number is x + 14 − y .. Descending number is x + y". Of either only 4 to 24 have keys,
// from 30 and from 51 on.
pub(crate) fn key_of(d: Way, code: Code) -> u8
    ensures { result ≡ key_of d (line_no d code) }
{
    let x = code.get() / 15;
    let y = code.get() % 15;
    by_direction(d, x, 15 + y, 26 + (x + 14 - y), 47 + (x + y))
}

// The direction of the line of a key.
#[tactic(auto, unfolding(rules::specs::Point::key_dir))]
pub(crate) fn key_direction(key: Key) -> Way
    ensures { result ≡ key_dir key }
{
    let d = match key.get() {
        0..=14 => 0,
        15..=29 => 1,
        30..=50 => 2,
        _ => 3,
    };
    Way::new(d).unwrap()
}

// The first point of the line of a key. Vertical and horizontal lines start at the lower and at the left edge. Ascending ones start at the
// left edge, from y = 10 down, then at the lower edge; descending ones at the left edge, from y = 4 up, then at the upper edge.
pub(crate) fn first_point(key: Key) -> Code
    ensures { result ≡ key_point key 0 }
{
    let key = key.get();
    match key {
        0..=14 => point(key, 0),
        15..=29 => point(0, key - 15),
        30..=40 => point(0, 40 - key),
        41..=50 => point(key - 40, 0),
        51..=61 => point(0, key - 47),
        _ => point(key - 61, 14),
    }
}

// The code of the point in column x and row y: 15x + y.
fn point(x: u8, y: u8) -> Code
    requires { (x < 15) × (y < 15) }
    ensures { result ≡ code_of x y }
{
    Code::new(15 * x + y).unwrap()
}
