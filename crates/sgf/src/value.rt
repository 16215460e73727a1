// The value of a move: two small letters in brackets, the column and the row counted from the top. And whose move it is.
ghost use Rattle.std.specs.Prelude.{◌≡◌};
ghost use Rattle.sgf.specs.Games.{mover, point_read};

// Who has move n, from 0.
#[tactic(auto, unfolding(crate::specs::Games::mover))]
pub(crate) fn mover(n: usize) -> u8
    ensures { result ≡ mover n }
{
    if n % 2 == 0 { b'B' } else { b'W' }
}

// The point that a token names, where it is the value of a move.
#[tactic(auto, unfolding(crate::specs::Games::point_read, crate::specs::Games::is_point, crate::specs::Games::point_of, crate::specs::Games::letter_no))]
pub(crate) fn point_of(token: &[u8]) -> Option<u8>
    ensures { result ≡ point_read token.now }
{
    match token {
        [b'[', column @ b'a'..=b'o', row @ b'a'..=b'o', b']'] => {
            Some(15 * (*column - b'a') + (14 - (*row - b'a')))
        }
        _ => None,
    }
}
