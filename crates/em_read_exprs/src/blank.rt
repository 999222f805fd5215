//! Whether a pattern is a `_`, in fragments or not.

ghost use Rattle.std.specs.Prelude.{◌≡◌, [], ◌∷◌, ◌++◌, codes};
ghost use Rattle.em_tree.specs.Starts.{is_spelled, pieces_of};
ghost use Rattle.em_tree.specs.Parts.{literal_parts, maybe, pat_parts, path_parts, segment_parts, segments_parts};
ghost use Rattle.em_tree.specs.Yields.{as_it_is, opened, opened_piece, piece, whole};
ghost use Rattle.em_grammar.specs.StmtReader as spec;
ghost use Rattle.em_read_exprs.specs.Blank.{both, told};

use em_base::Token;
use em_tree::{Group, Literal, Pat, Path, Piece, Segment, Segments, Shared, spelling};

/// What tokens are together.
#[derive(Clone, Copy)]
pub enum Seen {
    Nothing,
    /// One `_`.
    Underscore,
    /// One other token, or several.
    Other,
}

fn both(first: Seen, second: Seen) -> Seen
    ensures { result ≡ both first second }
{
    match (first, second) {
        (Seen::Nothing, _) => second,
        (_, Seen::Nothing) => first,
        _ => Seen::Other,
    }
}

fn is_underscore(token: &Token) -> bool
    ensures { result ≡ is_spelled (codes "_" ∷ []) token.now }
{
    match spelling(token) {
        Some(text) => text == "_",
        None => false,
    }
}

fn seen_token(token: &Token) -> Seen
    ensures { result ≡ told (token.now ∷ []) }
{
    if is_underscore(token) {
        Seen::Underscore
    } else {
        Seen::Other
    }
}

fn seen_shared(token: &Shared<Token>) -> Seen
    ensures { result ≡ told (token.now ∷ []) }
{
    seen_token(token.get())
}

/// What a token is that may lack.
#[tactic(auto, using(crate::proofs::Blanks::of_none))]
fn seen_if(token: &Option<Shared<Token>>) -> Seen
    ensures { result ≡ told (opened (maybe piece token.now)) }
{
    match token {
        Some(token) => seen_shared(token),
        None => Seen::Nothing,
    }
}

/// What the tokens of pieces are, with their fragments opened.
#[cycle(pieces)]
fn seen_pieces(pieces: &[Piece]) -> Seen
    ensures { result ≡ told (opened pieces.now) }
{
    let mut seen = Seen::Nothing;
    for piece in pieces {
        let next = seen_piece(piece);
        seen = both(seen, next);
    }
    seen
}

#[cycle(pieces)]
fn seen_piece(piece: &Piece) -> Seen
    ensures { result ≡ told (opened_piece piece.now) }
{
    match piece {
        Piece::Token(token) => seen_token(token),
        Piece::Group(group) => seen_pieces(group.pieces.get().list.as_slice()),
    }
}

fn seen_group(group: &Group) -> Seen
    ensures { result ≡ told (opened (pieces_of group.now)) }
{
    seen_pieces(group.pieces.get().list.as_slice())
}

fn seen_literal(literal: &Literal) -> Seen
    ensures { result ≡ told (opened (literal_parts piece whole as_it_is literal.now)) }
{
    match literal {
        Literal::Token(token) => seen_shared(token),
        Literal::Negative { minus, value } => both(seen_shared(minus), seen_literal(value.get())),
        Literal::Group { group, .. } => seen_group(group),
    }
}

#[tactic(auto, using(crate::proofs::Blanks::of_segment))]
fn seen_segment(segment: &Segment) -> Seen
    ensures { result ≡ told (opened (segment_parts piece whole as_it_is segment.now)) }
{
    both(seen_if(&segment.dollar), seen_shared(&segment.name))
}

#[tactic(auto, using(crate::proofs::Blanks::of_more_segments))]
fn seen_segments(segments: &Segments) -> Seen
    ensures { result ≡ told (opened (segments_parts piece whole as_it_is segments.now)) }
{
    match segments.more.as_slice() {
        [] => {
            let first = seen_segment(&segments.first);
            both(seen_if(&segments.lead), first)
        }
        _ => Seen::Other,
    }
}

#[tactic(auto, using(crate::proofs::Blanks::of_path_qualified))]
fn seen_path(path: &Path) -> Seen
    ensures { result ≡ told (opened (path_parts piece whole as_it_is path.now)) }
{
    match path {
        Path::Plain(segments) => seen_segments(segments),
        Path::Qualified(_) => Seen::Other,
        Path::Group { group, .. } => seen_group(group),
    }
}

fn seen_name(
    word_ref: &Option<Shared<Token>>,
    word_mut: &Option<Shared<Token>>,
    name: &Shared<Token>,
) -> Seen
    ensures { result ≡ told (opened (maybe piece word_ref.now ++ (maybe piece word_mut.now ++ piece name.now))) }
{
    let first = seen_if(word_ref);
    let middle = seen_if(word_mut);
    let last = seen_shared(name);
    let rest = both(middle, last);
    both(first, rest)
}

fn seen_range(start: &Literal, dots: &Shared<Token>, end: &Literal) -> Seen
    ensures { result ≡ told (opened (literal_parts piece whole as_it_is start.now ++ (piece dots.now ++ literal_parts piece whole as_it_is end.now))) }
{
    let first = seen_literal(start);
    let middle = seen_shared(dots);
    let last = seen_literal(end);
    let rest = both(middle, last);
    both(first, rest)
}

#[tactic(auto, using(crate::proofs::Blanks::of_pat_tuple, crate::proofs::Blanks::of_pat_struct))]
fn seen_pat(pat: &Pat) -> Seen
    ensures { result ≡ told (opened (pat_parts piece whole as_it_is pat.now)) }
{
    match pat {
        Pat::Wild(token) => seen_shared(token),
        Pat::Name {
            word_ref,
            word_mut,
            name,
        } => seen_name(word_ref, word_mut, name),
        Pat::Literal(literal) => seen_literal(literal),
        Pat::Range { start, dots, end } => seen_range(start, dots, end),
        Pat::Path(path) => seen_path(path),
        Pat::Tuple { .. } => Seen::Other,
        Pat::Struct { .. } => Seen::Other,
        Pat::Group { group, .. } => seen_group(group),
    }
}

/// Whether the pattern is a `_`. A `let` without a type has none.
#[tactic(auto, using(crate::proofs::Blanks::blank_yes, crate::proofs::Blanks::blank_no))]
pub fn is_blank(pat: &Pat) -> bool
    ensures { result ≡ spec.is_blank pat.now }
{
    matches!(seen_pat(pat), Seen::Underscore)
}
