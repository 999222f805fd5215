//! What the tokens of a macro's rules are.

ghost use Rattle.std.specs.Prelude.{◌≡◌, codes};
ghost use Rattle.std.specs.Option.{option_map};
ghost use Rattle.em_macro.specs.Form as law;

use crate::rules::Specifier;
use em_base::{Name, Token, TokenKind};
use em_tree::FragmentKind;

/// What a token is in the text of rules.
#[derive(Clone, Copy, Debug, PartialEq, Eq)]
pub enum Role {
    Dollar,
    Open,
    Close,
    Other,
}

#[tactic(auto, unfolding(crate::specs::Form::role_at))]
pub fn role_of(token: &Token) -> Role
    ensures { result ≡ law.role_at token.now }
{
    match token.kind {
        TokenKind::Open => Role::Open,
        TokenKind::Close => Role::Close,
        TokenKind::Punct if token.text.as_str() == "$" => Role::Dollar,
        _ => Role::Other,
    }
}

/// Whether the token is this punctuation.
#[tactic(auto, unfolding(crate::specs::Form::is_sign))]
pub fn is_sign(token: &Token, sign: &str) -> bool
    ensures { result ≡ law.is_sign sign.now token.now }
{
    match token.kind {
        TokenKind::Punct => token.text.as_str() == sign,
        _ => false,
    }
}

#[tactic(auto, unfolding(crate::specs::Form::is_paren))]
pub fn is_paren(token: &Token) -> bool
    ensures { result ≡ law.is_paren token.now }
{
    match token.kind {
        TokenKind::Open => token.text.as_str() == "(",
        _ => false,
    }
}

/// The name of a word.
#[tactic(auto, unfolding(crate::specs::Form::name_of))]
pub fn name_of(token: &Token) -> Option<&Name>
    ensures { option_map (λ n. n.now) result ≡ law.name_of token.now }
{
    match &token.kind {
        TokenKind::Ident { name, .. } => Some(name),
        _ => None,
    }
}

/// Whether the token is the keyword `crate`.
#[tactic(auto, unfolding(crate::specs::Form::is_crate))]
pub fn is_crate(token: &Token) -> bool
    ensures { result ≡ law.is_crate token.now }
{
    match &token.kind {
        TokenKind::Ident { name, raw: false } => name.as_str() == "crate",
        _ => false,
    }
}

/// The kind of fragment that a word names (Reference, "Metavariables").
fn kind_named(name: &Name) -> Option<FragmentKind>
    ensures { result ≡ law.kind_named name.now }
{
    match name.as_str() {
        "ident" => Some(FragmentKind::Ident),
        "tt" => Some(FragmentKind::Tt),
        "literal" => Some(FragmentKind::Literal),
        "block" => Some(FragmentKind::Block),
        "expr" => Some(FragmentKind::Expr),
        "stmt" => Some(FragmentKind::Stmt),
        "ty" => Some(FragmentKind::Ty),
        "path" => Some(FragmentKind::Path),
        "pat" => Some(FragmentKind::Pat),
        "pat_param" => Some(FragmentKind::PatParam),
        "item" => Some(FragmentKind::Item),
        _ => None,
    }
}

/// The kind of fragment that the token names, with the edition of its text.
#[tactic(auto, unfolding(crate::specs::Form::specified))]
pub fn specified(token: &Token) -> Option<Specifier>
    ensures { result ≡ law.specified token.now }
{
    match &token.kind {
        TokenKind::Ident { name, raw: false } => match kind_named(name) {
            Some(kind) => Some(Specifier {
                kind,
                edition: token.edition,
            }),
            None => None,
        },
        _ => None,
    }
}

/// Whether two delimiters are those of one pair.
#[tactic(auto, unfolding(crate::specs::Form::pairs))]
pub fn pairs(open: &Token, close: &Token) -> bool
    ensures { result ≡ law.pairs open.now close.now }
{
    let (open, close) = (open.text.as_str(), close.text.as_str());
    open == "(" && close == ")" || open == "[" && close == "]" || open == "{" && close == "}"
}

/// Whether an operator of a repetition is `+`, where the token is one.
#[tactic(auto, unfolding(crate::specs::Form::plus_of))]
pub fn plus_of(token: &Token) -> Option<bool>
    ensures { result ≡ law.plus_of token.now }
{
    if is_sign(token, "*") {
        Some(false)
    } else if is_sign(token, "+") {
        Some(true)
    } else {
        None
    }
}
