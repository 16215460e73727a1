// The tokens of a text: a value with its brackets, a property's name, or any other byte alone. White space may stand around them.
ghost use Rattle.std.specs.Prelude.{◌≡◌};
ghost use Rattle.rules.specs.Cases.{same};
ghost use Rattle.sgf.specs.Tokens.{capital, value_length, name_length, token_length, first_token, behind_token};

use lent::{find, head, tail};
use text::leading_space;

// Whether a byte belongs to a property's name.
#[tactic(auto, unfolding(crate::specs::Tokens::capital))]
fn is_capital(b: u8) -> bool
    ensures { result ≡ capital b }
{
    b.is_ascii_uppercase()
}

// How many bytes a value has that a text begins with: up to the first closing bracket; the opening one alone where there is none.
fn value_length(s: &[u8]) -> usize
    ensures { result ≡ value_length s.now }
{
    let end = find(s, b']');
    if end < s.len() { end + 1 } else { 1 }
}

// How many capital letters a text begins with.
fn name_length(s: &[u8]) -> usize
    ensures { result ≡ name_length s.now }
{
    for i in 0..s.len() {
        if !is_capital(s[i]) {
            return i;
        }
    }
    s.len()
}

// How many bytes the token has that a text begins with.
#[tactic(auto, unfolding(crate::specs::Tokens::token_length))]
fn token_length(s: &[u8]) -> usize
    ensures { result ≡ token_length s.now }
{
    match s {
        [b'[', ..] => value_length(s),
        [b, ..] if is_capital(*b) => name_length(s),
        _ => 1,
    }
}

// The first token of a text, nothing where only white space is left.
pub(crate) fn first_token(s: &[u8]) -> &[u8]
    ensures { result.now ≡ first_token s.now }
{
    let t = tail(s, leading_space(s));
    head(t, token_length(t))
}

// What is behind it.
pub(crate) fn behind_token(s: &[u8]) -> &[u8]
    ensures { result.now ≡ behind_token s.now }
{
    let t = tail(s, leading_space(s));
    tail(t, token_length(t))
}

// Whether it is this one.
pub(crate) fn is_token(s: &[u8], token: &[u8]) -> bool
    ensures { result ≡ same (first_token s.now) token.now }
{
    first_token(s) == token
}
