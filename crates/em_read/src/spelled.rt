//! Tokens by their spelling.

ghost use Rattle.std.specs.Prelude.{◌≡◌, map};
ghost use Rattle.em_base.specs.Words.{is_among};
ghost use Rattle.em_tree.specs.Starts.{is_spelled};

use em_base::Token;
use em_tree::spelling;

fn is_among(text: &str, list: &[&str]) -> bool
    ensures { result ≡ is_among (map (λ w. w.now) list.now) text.now }
{
    for word in list {
        if *word == text {
            return true;
        }
    }
    false
}

/// Whether the token has one of these spellings. Takes no memory.
pub fn is_spelled(token: &Token, list: &[&str]) -> bool
    ensures { result ≡ is_spelled (map (λ w. w.now) list.now) token.now }
{
    match spelling(token) {
        Some(text) => is_among(text, list),
        None => false,
    }
}
