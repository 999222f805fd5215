//! Patterns (Reference, "Patterns").

ghost use Rattle.std.specs.Prelude.{◌≡◌, IfOk, IfErr};
ghost use Rattle.em_grammar.specs.Lang.{one, two};
ghost use Rattle.em_grammar.specs.LiteralReader.{signed_in};
ghost use Rattle.em_grammar.specs.PatReader as spec;
ghost use Rattle.em_grammar.specs.Reader as read;
ghost use Rattle.em_grammar.specs.Sets.{is_sign};
ghost use Rattle.em_grammar.specs.TypeReader.{alone};
ghost use Rattle.em_grammar.specs.declared.sort.Written.TheVariants as word;
ghost use Rattle.em_read.specs.declared.stop.Stop.TheVariants as Refusal;
ghost use Rattle.em_read.specs.Gives.{Gives};
ghost use Rattle.em_read.specs.Parse.{Reads};
ghost use Rattle.em_read_types.specs.PatParts as part;

use crate::pat_inside::PatInside;
use crate::pat_sets::{is_pat_group, starts_mark, starts_pat_node, starts_signed};
use crate::path_words::{alone, is_before_2021};
use em_base::Token;
use em_grammar::{Written, is_name, is_sign};
use em_read::{Cursor, Stop, Want, keep, list_of, sign, sign_if, stands, token};
use em_tree::{FieldPat, Listed, Literal, Pat, Path, Piece, Shared};
use sqlite_items::{Boxed, Items};
use std::alloc::Global;

/// A name with `ref` and `mut` before it (Reference, "Identifier patterns").
#[derive(Drop)]
pub struct Marked {
    pub word_ref: Option<Shared<Token>>,
    pub word_mut: Option<Shared<Token>>,
    pub name: Shared<Token>,
}

/// A name with at least one of `ref` and `mut`.
fn marked_name(alloc: Global, input: &mut Cursor<'_>) -> Result<Marked, Stop>
    ensures { Gives part.marked_of (spec.marked input.old.rest.now) result input.new.rest.now }
{
    if stands(input, Written::Ref) {
        let word_ref = sign(alloc, input, Written::Ref)?;
        let word_mut = sign_if(alloc, input, Written::Mut)?;
        let name = token(alloc, input, Want::Name)?;
        return Ok(Marked {
            word_ref: Some(word_ref),
            word_mut,
            name,
        });
    }
    let word_mut = sign(alloc, input, Written::Mut)?;
    let name = token(alloc, input, Want::Name)?;
    Ok(Marked {
        word_ref: None,
        word_mut: Some(word_mut),
        name,
    })
}

fn marked_pat(alloc: Global, input: &mut Cursor<'_>) -> Result<Pat, Stop>
    ensures { Reads (read.mapped spec.marked_pat spec.marked input.old.rest.now) result input.new.rest.now }
{
    let found = marked_name(alloc, input)?;
    Ok(Pat::Name {
        word_ref: found.word_ref,
        word_mut: found.word_mut,
        name: found.name,
    })
}

/// Whether the token makes a range: `..=`, or `...` before 2021 (Reference, "Range patterns").
fn is_dots(token: &Token) -> bool
    ensures { result ≡ spec.is_dots token.now }
{
    is_sign(Written::DotDotEq, token)
        || is_sign(Written::DotDotDot, token) && is_before_2021(token.edition)
}

fn dots(alloc: Global, input: &mut Cursor<'_>) -> Result<Shared<Token>, Stop>
    ensures { Reads (read.token spec.is_dots input.old.rest.now) result input.new.rest.now }
{
    match input.rest {
        [Piece::Token(token), rest @ ..] if is_dots(token) => {
            let found = keep(alloc, token)?;
            input.rest = rest;
            Ok(found)
        }
        _ => Err(Stop::Absent),
    }
}

/// What makes a literal a range.
fn range_end<I: PatInside>(
    alloc: Global,
    inside: &I,
    input: &mut Cursor<'_>,
) -> Result<(Shared<Token>, Literal), Stop>
    requires { I.ready inside.now }
    ensures { Reads (read.seq (read.token spec.is_dots) (signed_in (I.number inside.now)) input.old.rest.now) result input.new.rest.now }
{
    let dots = dots(alloc, input)?;
    let end = inside.literal(input)?;
    Ok((dots, end))
}

/// A literal or a range.
fn literal_pat<I: PatInside>(alloc: Global, inside: &I, input: &mut Cursor<'_>) -> Result<Pat, Stop>
    requires { I.ready inside.now }
    ensures { Reads (part.literal_pat (I.number inside.now) input.old.rest.now) result input.new.rest.now }
{
    let start = inside.literal(input)?;
    let behind = input.rest;
    match range_end(alloc, inside, input) {
        Ok((dots, end)) => Ok(Pat::Range { start, dots, end }),
        Err(Stop::Absent) => {
            input.rest = behind;
            Ok(Pat::Literal(start))
        }
        Err(stop) => Err(stop),
    }
}

/// The fields of a tuple struct or a struct, with what stands around them.
#[derive(Drop)]
pub enum Fields {
    Tuple {
        open: Shared<Token>,
        fields: Items<Listed<Pat>>,
        close: Shared<Token>,
    },
    Struct {
        open: Shared<Token>,
        fields: Items<Listed<FieldPat<Pat>>>,
        rest: Option<Shared<Token>>,
        close: Shared<Token>,
    },
}

/// Patterns with commas.
fn pats<I: PatInside>(
    alloc: Global,
    inside: &I,
    input: &mut Cursor<'_>,
) -> Result<Items<Listed<Pat>>, Stop>
    requires { I.ready inside.now }
    ensures { Reads (read.list_of (I.inner inside.now) input.old.rest.now) result input.new.rest.now }
{
    list_of(alloc, input, |input| inside.pat(input))
}

/// The fields of a tuple struct (Reference, "Tuple struct patterns").
fn tuple_parts<I: PatInside>(
    alloc: Global,
    inside: &I,
    input: &mut Cursor<'_>,
) -> Result<Fields, Stop>
    requires { I.ready inside.now }
    ensures { Gives part.fields_of (read.mapped one (spec.tuple_parts (I.inner inside.now)) input.old.rest.now) result input.new.rest.now }
{
    let open = sign(alloc, input, Written::OpenParen)?;
    let fields = pats(alloc, inside, input)?;
    let close = sign(alloc, input, Written::CloseParen)?;
    Ok(Fields::Tuple {
        open,
        fields,
        close,
    })
}

/// The pattern of a field, behind its name.
fn field_value<I: PatInside>(
    alloc: Global,
    inside: &I,
    input: &mut Cursor<'_>,
) -> Result<(Shared<Token>, Pat), Stop>
    requires { I.ready inside.now }
    ensures { Reads (read.seq (read.token (is_sign word.Colon)) (I.inner inside.now) input.old.rest.now) result input.new.rest.now }
{
    let colon = sign(alloc, input, Written::Colon)?;
    let pat = inside.pat(input)?;
    Ok((colon, pat))
}

fn named_field<I: PatInside>(
    alloc: Global,
    inside: &I,
    input: &mut Cursor<'_>,
) -> Result<FieldPat<Pat>, Stop>
    requires { I.ready inside.now }
    ensures { Reads (part.named_field (I.inner inside.now) input.old.rest.now) result input.new.rest.now }
{
    let name = token(alloc, input, Want::Name)?;
    let behind = input.rest;
    match field_value(alloc, inside, input) {
        Ok((colon, pat)) => Ok(FieldPat::Full { name, colon, pat }),
        Err(Stop::Absent) => {
            input.rest = behind;
            Ok(FieldPat::Short {
                word_ref: None,
                word_mut: None,
                name,
            })
        }
        Err(stop) => Err(stop),
    }
}

/// A field of a struct pattern.
fn pat_field<I: PatInside>(
    alloc: Global,
    inside: &I,
    input: &mut Cursor<'_>,
) -> Result<FieldPat<Pat>, Stop>
    requires { I.ready inside.now }
    ensures { Reads (spec.pat_field (I.inner inside.now) input.old.rest.now) result input.new.rest.now }
{
    if starts_mark(input) {
        let found = marked_name(alloc, input)?;
        return Ok(FieldPat::Short {
            word_ref: found.word_ref,
            word_mut: found.word_mut,
            name: found.name,
        });
    }
    named_field(alloc, inside, input)
}

fn pat_fields<I: PatInside>(
    alloc: Global,
    inside: &I,
    input: &mut Cursor<'_>,
) -> Result<Items<Listed<FieldPat<Pat>>>, Stop>
    requires { I.ready inside.now }
    ensures { Reads (read.list_of (spec.pat_field (I.inner inside.now)) input.old.rest.now) result input.new.rest.now }
{
    list_of(alloc, input, |input| pat_field(alloc, inside, input))
}

/// Whether a comma stands behind each field.
fn all_commas(fields: &[Listed<FieldPat<Pat>>]) -> bool
    ensures { result ≡ spec.all_commas fields.now }
{
    for field in fields {
        if field.comma.is_none() {
            return false;
        }
    }
    true
}

/// The `..` of a struct pattern, where one may stand.
fn rest_dots(
    alloc: Global,
    input: &mut Cursor<'_>,
    may: bool,
) -> Result<Option<Shared<Token>>, Stop>
    ensures { Reads (read.opt (read.when may (read.token (is_sign word.DotDot))) input.old.rest.now) result input.new.rest.now }
{
    if may {
        return sign_if(alloc, input, Written::DotDot);
    }
    Ok(None)
}

fn struct_end(
    alloc: Global,
    input: &mut Cursor<'_>,
    fields: &[Listed<FieldPat<Pat>>],
) -> Result<(Option<Shared<Token>>, Shared<Token>), Stop>
    ensures { Reads (part.struct_end fields.now input.old.rest.now) result input.new.rest.now }
{
    let rest = rest_dots(alloc, input, all_commas(fields))?;
    let close = sign(alloc, input, Written::CloseBrace)?;
    Ok((rest, close))
}

/// The fields of a struct (Reference, "Struct patterns").
fn struct_parts<I: PatInside>(
    alloc: Global,
    inside: &I,
    input: &mut Cursor<'_>,
) -> Result<Fields, Stop>
    requires { I.ready inside.now }
    ensures { Gives part.fields_of (read.mapped two (spec.struct_parts (I.inner inside.now)) input.old.rest.now) result input.new.rest.now }
{
    let open = sign(alloc, input, Written::OpenBrace)?;
    let fields = pat_fields(alloc, inside, input)?;
    let (rest, close) = struct_end(alloc, input, fields.as_slice())?;
    Ok(Fields::Struct {
        open,
        fields,
        rest,
        close,
    })
}

/// What may stand behind the path of a pattern.
fn fields_behind<I: PatInside>(
    alloc: Global,
    inside: &I,
    input: &mut Cursor<'_>,
) -> Result<Fields, Stop>
    requires { I.ready inside.now }
    ensures { Gives part.fields_of (part.behind (I.inner inside.now) input.old.rest.now) result input.new.rest.now }
{
    if stands(input, Written::OpenParen) {
        return tuple_parts(alloc, inside, input);
    }
    struct_parts(alloc, inside, input)
}

/// The name that a path is, for a tree to keep.
fn lone_name(alloc: Global, path: &Path) -> Result<Option<Shared<Token>>, Stop>
    ensures kept { IfOk result (λ t. t ≡ part.only_name (alone path.now)) }
    ensures fails { IfErr result (λ e. e ≡ Refusal.NoMemory) }
{
    match alone(path) {
        Some(token) if is_name(token) => Ok(Some(keep(alloc, token)?)),
        _ => Ok(None),
    }
}

/// The pattern of a path with nothing behind it.
fn bare_pat(alloc: Global, path: Path) -> Result<Pat, Stop>
    ensures made { IfOk result (λ t. t ≡ spec.bare_pat path (alone path)) }
    ensures fails { IfErr result (λ e. e ≡ Refusal.NoMemory) }
{
    match lone_name(alloc, &path)? {
        Some(name) => Ok(Pat::Name {
            word_ref: None,
            word_mut: None,
            name,
        }),
        None => Ok(Pat::Path(path)),
    }
}

fn with_fields(path: Path, fields: Fields) -> Pat
    ensures { result ≡ part.with_fields path (part.fields_of fields) }
{
    match fields {
        Fields::Tuple {
            open,
            fields,
            close,
        } => Pat::Tuple {
            path,
            open,
            fields,
            close,
        },
        Fields::Struct {
            open,
            fields,
            rest,
            close,
        } => Pat::Struct {
            path,
            open,
            fields,
            rest,
            close,
        },
    }
}

/// A pattern that begins with a path.
fn path_pat<I: PatInside>(alloc: Global, inside: &I, input: &mut Cursor<'_>) -> Result<Pat, Stop>
    requires { I.ready inside.now }
    ensures { Reads (part.path_pat (I.paths inside.now) (I.inner inside.now) input.old.rest.now) result input.new.rest.now }
{
    let path = inside.path(input)?;
    let behind = input.rest;
    match fields_behind(alloc, inside, input) {
        Ok(fields) => Ok(with_fields(path, fields)),
        Err(Stop::Absent) => {
            input.rest = behind;
            let found = bare_pat(alloc, path)?;
            Ok(found)
        }
        Err(stop) => Err(stop),
    }
}

/// A pattern that is no fragment, by its first piece.
#[tactic(auto, unfolding(em_grammar::specs::PatReader::pat_token))]
fn pat_token<I: PatInside>(alloc: Global, inside: &I, input: &mut Cursor<'_>) -> Result<Pat, Stop>
    requires { I.ready inside.now }
    ensures { Reads (spec.pat_token (I.number inside.now) (I.paths inside.now) (I.inner inside.now) input.old.rest.now) result input.new.rest.now }
{
    if stands(input, Written::Underscore) {
        let found = sign(alloc, input, Written::Underscore)?;
        return Ok(Pat::Wild(found));
    }
    if starts_mark(input) {
        return marked_pat(alloc, input);
    }
    if starts_signed(input) {
        return literal_pat(alloc, inside, input);
    }
    path_pat(alloc, inside, input)
}

/// A fragment that is one pattern.
fn pat_group<I: PatInside>(alloc: Global, inside: &I, input: &mut Cursor<'_>) -> Result<Pat, Stop>
    requires { I.ready inside.now }
    ensures { Reads (read.mapped spec.pat_group_of (read.group spec.is_pat_group (I.opens inside.now)) input.old.rest.now) result input.new.rest.now }
{
    match input.rest {
        [Piece::Group(group), rest @ ..] if is_pat_group(input.rest) => {
            let found = inside.opened(group.pieces.get().list.as_slice())?;
            input.rest = rest;
            let inner = Boxed::new(alloc, found)?;
            let group = group.share(alloc)?;
            Ok(Pat::Group { group, inner })
        }
        _ => Err(Stop::Absent),
    }
}

/// A pattern without alternatives.
#[tactic(auto, unfolding(em_grammar::specs::PatReader::pat_node))]
pub fn pat_node<I: PatInside>(
    alloc: Global,
    inside: &I,
    input: &mut Cursor<'_>,
) -> Result<Pat, Stop>
    requires { I.ready inside.now }
    ensures { Reads (spec.pat_node (I.number inside.now) (I.paths inside.now) (I.inner inside.now) (I.opens inside.now) input.old.rest.now) result input.new.rest.now }
{
    if starts_pat_node(input) {
        return pat_token(alloc, inside, input);
    }
    pat_group(alloc, inside, input)
}
