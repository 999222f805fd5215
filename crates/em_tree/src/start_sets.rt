ghost use Rattle.std.specs.Prelude.{◌≡◌, true, [], ◌∷◌, codes};
ghost use Rattle.std.specs.List.{list_all, list_any};
ghost use Rattle.std.specs.Option.{option_map};
ghost use Rattle.em_base.specs.Words.{texts, is_ascending, is_among};
ghost use Rattle.em_base.specs.declared.edition.Edition.TheVariants.{E2021};
ghost use Rattle.em_tree.specs.declared.piece.FragmentKind.TheVariants as f;
ghost use Rattle.em_tree.specs.Starts.{is_bar, is_pat_kind, is_name, is_word, is_lifetime, is_literal, is_close, is_lettered, spelling, is_spelled, starts_in_2021, starts_kind, starts, starts_token, starts_group, expr_starts, type_starts, path_starts, pattern_starts, literal_starts};

use crate::piece::{FragmentKind, Group, Piece};
use em_base::{Class, Edition, Name, Token, TokenKind, Word, find, keyword_in};

macro_rules! words {
    ($($text:literal),* $(,)?) => {
        [$(Word { text: $text, since: Edition::E2015 }),*]
    };
}

/// The spellings that an expression starts with, beside names, literals and lifetimes.
fn expr_words() -> [Word; 37]
    ensures ascending { is_ascending (texts result) ≡ true }
    ensures within { list_all (is_among expr_starts) (texts result) ≡ true }
    ensures whole { list_all (is_among (texts result)) expr_starts ≡ true }
{
    words!(
        "!", "#", "&", "&&", "(", "*", "-", "..", "...", "..=", "::", "<", "<<", "Self", "[",
        "async", "break", "continue", "crate", "false", "for", "if", "loop", "match", "move",
        "return", "self", "static", "super", "true", "try", "unsafe", "while", "yield", "{", "|",
        "||",
    )
}

/// The spellings that a type starts with, beside names and lifetimes.
fn type_words() -> [Word; 21]
    ensures ascending { is_ascending (texts result) ≡ true }
    ensures within { list_all (is_among type_starts) (texts result) ≡ true }
    ensures whole { list_all (is_among (texts result)) type_starts ≡ true }
{
    words!(
        "!", "&", "&&", "(", "*", "::", "<", "<<", "?", "Self", "[", "_", "crate", "dyn", "extern",
        "fn", "for", "impl", "self", "super", "unsafe",
    )
}

/// The spellings that a path starts with, beside identifiers and keywords.
fn path_words() -> [Word; 2]
    ensures ascending { is_ascending (texts result) ≡ true }
    ensures within { list_all (is_among path_starts) (texts result) ≡ true }
    ensures whole { list_all (is_among (texts result)) path_starts ≡ true }
{
    words!("::", "_",)
}

/// The spellings that a pattern starts with, beside identifiers, keywords and literals.
fn pattern_words() -> [Word; 11]
    ensures ascending { is_ascending (texts result) ≡ true }
    ensures within { list_all (is_among pattern_starts) (texts result) ≡ true }
    ensures whole { list_all (is_among (texts result)) pattern_starts ≡ true }
{
    words!("&", "&&", "(", "-", "..", "...", "::", "<", "<<", "[", "_",)
}

/// The spellings that a literal starts with, beside literal tokens.
fn literal_words() -> [Word; 3]
    ensures ascending { is_ascending (texts result) ≡ true }
    ensures within { list_all (is_among literal_starts) (texts result) ≡ true }
    ensures whole { list_all (is_among (texts result)) literal_starts ≡ true }
{
    words!("-", "false", "true",)
}

fn is_lettered(name: &Name) -> bool
    ensures { result ≡ is_lettered name.now }
{
    match name.as_bytes() {
        [first, ..] => first.is_ascii_alphabetic(),
        [] => false,
    }
}

/// What words and signs are compared with: the name of an identifier, the text of a delimiter or of punctuation. A raw
/// identifier, a literal and a lifetime are none of them. Takes no memory.
pub fn spelling(token: &Token) -> Option<&str>
    ensures { option_map (λ s. s.now) result ≡ spelling token.now }
{
    match &token.kind {
        TokenKind::Ident { name, raw: false } if is_lettered(name) => Some(name.as_str()),
        TokenKind::Open => Some(token.text.as_str()),
        TokenKind::Close => Some(token.text.as_str()),
        TokenKind::Punct => Some(token.text.as_str()),
        _ => None,
    }
}

/// Whether the token has one of a table's spellings.
fn is_spelled(table: &[Word], token: &Token) -> bool
    requires { is_ascending (texts table.now) ≡ true }
    ensures { result ≡ is_spelled (texts table.now) token.now }
{
    match spelling(token) {
        Some(text) => find(table, text).is_some(),
        None => false,
    }
}

/// Whether the token is spelled like this sign.
fn is_sign(token: &Token, sign: &str) -> bool
    ensures { result ≡ is_spelled (sign.now ∷ []) token.now }
{
    match spelling(token) {
        Some(text) => text == sign,
        None => false,
    }
}

/// Whether the token is an identifier or a keyword.
fn is_word(token: &Token) -> bool
    ensures { result ≡ is_word token.now }
{
    matches!(token.kind, TokenKind::Ident { .. })
}

/// Whether the token is an identifier that is no keyword in the edition of its text.
fn is_name(token: &Token) -> bool
    ensures { result ≡ is_name token.now }
{
    match &token.kind {
        TokenKind::Ident { name, raw } => *raw || keyword_in(token.edition, name) != Class::Keyword,
        _ => false,
    }
}

fn is_lifetime(token: &Token) -> bool
    ensures { result ≡ is_lifetime token.now }
{
    matches!(token.kind, TokenKind::Lifetime { .. })
}

fn is_close(token: &Token) -> bool
    ensures { result ≡ is_close token.now }
{
    matches!(token.kind, TokenKind::Close)
}

fn is_literal(token: &Token) -> bool
    ensures { result ≡ is_literal token.now }
{
    match token.kind {
        TokenKind::Int { .. } => true,
        TokenKind::Char { .. } => true,
        TokenKind::Byte { .. } => true,
        TokenKind::Str { .. } => true,
        TokenKind::ByteStr { .. } => true,
        _ => false,
    }
}

fn is_pat(kind: FragmentKind) -> bool
    ensures { result ≡ is_pat_kind kind }
{
    matches!(kind, FragmentKind::Pat)
}

/// Whether there is a `|` among the pieces, those of `pat` fragments included.
#[cycle(bars)]
fn has_bar(pieces: &[Piece]) -> bool
    ensures { result ≡ list_any is_bar pieces.now }
{
    for piece in pieces {
        if is_bar(piece) {
            return true;
        }
    }
    false
}

#[cycle(bars)]
#[tactic(auto, using(crate::proofs::Bars::bar_token, crate::proofs::Bars::bar_pat, crate::proofs::Bars::bar_other))]
fn is_bar(piece: &Piece) -> bool
    ensures { result ≡ is_bar piece.now }
{
    match piece {
        Piece::Token(token) => is_pipe(token),
        Piece::Group(group) => { is_pat(group.kind) && has_bar(group.pieces.get().list.as_slice()) }
    }
}

fn is_expr_word(token: &Token) -> bool
    ensures { result ≡ is_spelled expr_starts token.now }
{
    is_spelled(&expr_words(), token)
}

fn is_type_word(token: &Token) -> bool
    ensures { result ≡ is_spelled type_starts token.now }
{
    is_spelled(&type_words(), token)
}

fn is_path_word(token: &Token) -> bool
    ensures { result ≡ is_spelled path_starts token.now }
{
    is_spelled(&path_words(), token)
}

fn is_pattern_word(token: &Token) -> bool
    ensures { result ≡ is_spelled pattern_starts token.now }
{
    is_spelled(&pattern_words(), token)
}

fn is_literal_word(token: &Token) -> bool
    ensures { result ≡ is_spelled literal_starts token.now }
{
    is_spelled(&literal_words(), token)
}

fn is_brace(token: &Token) -> bool
    ensures { result ≡ is_spelled (codes "{" ∷ []) token.now }
{
    is_sign(token, "{")
}

fn is_pipe(token: &Token) -> bool
    ensures { result ≡ is_spelled (codes "|" ∷ []) token.now }
{
    is_sign(token, "|")
}

#[tactic(auto, unfolding(crate::specs::Starts::starts_token))]
fn starts_expr(token: &Token) -> bool
    ensures { result ≡ starts_token f.Expr E2021 token.now }
{
    is_name(token) || is_literal(token) || is_lifetime(token) || is_expr_word(token)
}

#[tactic(auto, unfolding(crate::specs::Starts::starts_token))]
fn starts_type(token: &Token) -> bool
    ensures { result ≡ starts_token f.Ty E2021 token.now }
{
    is_name(token) || is_lifetime(token) || is_type_word(token)
}

#[tactic(auto, unfolding(crate::specs::Starts::starts_token))]
fn starts_pattern(token: &Token) -> bool
    ensures { result ≡ starts_token f.PatParam E2021 token.now }
{
    is_word(token) || is_literal(token) || is_pattern_word(token)
}

fn is_2021(edition: Edition) -> bool
    ensures { result ≡ starts_in_2021 edition }
{
    match edition {
        Edition::E2021 => true,
        _ => false,
    }
}

/// Whether the token can start a fragment of the kind. The edition is that of the word that names the kind, and matters
/// for `pat` alone. Takes no memory.
#[tactic(auto, unfolding(crate::specs::Starts::starts_token))]
pub fn starts_token(kind: FragmentKind, edition: Edition, token: &Token) -> bool
    ensures { result ≡ starts_token kind edition token.now }
{
    match kind {
        FragmentKind::Ident => is_word(token),
        FragmentKind::Tt => !is_close(token),
        FragmentKind::Literal => is_literal(token) || is_literal_word(token),
        FragmentKind::Block => is_brace(token),
        FragmentKind::Expr => starts_expr(token),
        FragmentKind::Stmt => !is_close(token),
        FragmentKind::Ty => starts_type(token),
        FragmentKind::Path => is_word(token) || is_path_word(token),
        FragmentKind::Pat => starts_pattern(token) || is_2021(edition) && is_pipe(token),
        FragmentKind::PatParam => starts_pattern(token),
        FragmentKind::Item => !is_close(token),
    }
}

/// Whether a group of the first kind, whose pieces are one pattern or not, starts a fragment of the second.
#[tactic(auto, unfolding(crate::specs::Starts::starts_kind))]
fn starts_kind(group: FragmentKind, one: bool, kind: FragmentKind) -> bool
    ensures { result ≡ starts_kind group one kind }
{
    match (group, kind) {
        (_, FragmentKind::Tt) => true,
        (FragmentKind::Literal, FragmentKind::Expr) => true,
        (FragmentKind::Literal, FragmentKind::Stmt) => true,
        (FragmentKind::Literal, FragmentKind::Pat) => true,
        (FragmentKind::Literal, FragmentKind::PatParam) => true,
        (FragmentKind::Block, FragmentKind::Expr) => true,
        (FragmentKind::Block, FragmentKind::Stmt) => true,
        (FragmentKind::Expr, FragmentKind::Stmt) => true,
        (FragmentKind::Path, FragmentKind::Ty) => true,
        (FragmentKind::Path, FragmentKind::Expr) => true,
        (FragmentKind::Pat, FragmentKind::PatParam) => one,
        (FragmentKind::PatParam, FragmentKind::Pat) => one,
        (first, second) => first == second,
    }
}

fn starts_group(kind: FragmentKind, group: &Group) -> bool
    ensures { result ≡ starts_group kind group.now }
{
    let one = !has_bar(group.pieces.get().list.as_slice());
    starts_kind(group.kind, one, kind)
}

/// Whether the first of the pieces can start a fragment of the kind. The edition is that of the word that names the
/// kind, and matters for `pat` alone. Takes no memory.
#[tactic(auto, unfolding(crate::specs::Starts::starts))]
pub fn starts(kind: FragmentKind, edition: Edition, pieces: &[Piece]) -> bool
    ensures { result ≡ starts kind edition pieces.now }
{
    match pieces.first() {
        None => false,
        Some(Piece::Token(token)) => starts_token(kind, edition, token),
        Some(Piece::Group(group)) => starts_group(kind, group),
    }
}
