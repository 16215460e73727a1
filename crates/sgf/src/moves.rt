// A game's tokens, three by three: the front is two times three, a move is three, and the end is one.
ghost use Rattle.std.specs.Prelude.{◌≡◌, ◌≤◌, length};
ghost use Rattle.rules.specs.Answers.{answer};
ghost use Rattle.sgf.specs.Tokens.{tokens_of, behind_three};
ghost use Rattle.sgf.specs.Games.{are_three, is_front, move_read, moves_from, behind_moves, end_refusal, is_end};

use super::token::{behind_token, first_token, is_token};
use super::value::{mover, point_of};
use lent::Kept;
use rules::{Refusal, unless};

// What is behind three tokens.
fn behind_three(s: &[u8]) -> &[u8]
    ensures { result.now ≡ behind_three s.now }
{
    behind_token(behind_token(behind_token(s)))
}

// Whether the first three tokens are these.
fn are_three(s: &[u8], a: &[u8], b: &[u8], c: &[u8]) -> bool
    ensures { result ≡ are_three a.now b.now c.now (tokens_of s.now) }
{
    let second = behind_token(s);
    let third = behind_token(second);
    is_token(s, a) & (is_token(second, b) & is_token(third, c))
}

// Whether the tokens `(` `;` `GM` `[4]` `SZ` `[15]` stand in front, and what is behind six tokens.
pub(crate) fn is_front(s: &[u8]) -> bool
    ensures { result ≡ is_front (tokens_of s.now) }
{
    are_three(s, b"(", b";", b"GM") & are_three(behind_three(s), b"[4]", b"SZ", b"[15]")
}

pub(crate) fn behind_front(s: &[u8]) -> &[u8]
    ensures { result.now ≡ behind_three (behind_three s.now) }
{
    behind_three(behind_three(s))
}

// The point of move n, where the first three tokens are one.
#[tactic(auto, unfolding(crate::specs::Games::move_read, crate::specs::Games::is_move, crate::specs::Games::point_read))]
fn move_at(s: &[u8], n: usize) -> Option<u8>
    ensures { result ≡ move_read n (tokens_of s.now) }
{
    let name = behind_token(s);
    let value = behind_token(name);
    if is_token(s, b";") & is_token(name, &[mover(n)]) {
        point_of(first_token(value))
    } else {
        None
    }
}

// Whether `)` alone is left.
fn is_end(s: &[u8]) -> bool
    ensures { result ≡ is_end (tokens_of s.now) }
{
    is_token(s, b")") & (first_token(behind_token(s)).len() == 0)
}

// The moves that stand in front, where the end is behind them. A move has six bytes at least, so there are at most 682.
pub(crate) fn moves_in(s: &[u8]) -> Result<Kept<682>, Refusal>
    requires { length s.now ≤ 4096 }
    ensures { result ≡ answer (end_refusal (behind_moves 0 (tokens_of s.now))) (moves_from 0 (tokens_of s.now)) }
{
    let mut codes = Kept::new();
    let mut rest = s;
    'moves: while let Some(code) = move_at(rest, codes.len()) {
        codes.keep(&[code]);
        rest = behind_three(rest);
    }
    unless(is_end(rest), Refusal::OutsideSubset)?;
    Ok(codes)
}
