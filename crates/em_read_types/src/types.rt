//! Types (Reference, "Types").

ghost use Rattle.std.specs.Prelude.{◌≡◌, IfOk, IfErr};
ghost use Rattle.em_grammar.specs.Reader as read;
ghost use Rattle.em_grammar.specs.TypeReader as spec;
ghost use Rattle.em_read.specs.declared.stop.Stop.TheVariants as Refusal;
ghost use Rattle.em_read.specs.Gives.{Gives};
ghost use Rattle.em_read.specs.Parse.{Reads};
ghost use Rattle.em_read_types.specs.TypeParts as part;

use crate::path_words::{callable, is_lone, lone_word};
use crate::type_inside::TypeInside;
use crate::type_sets::{follows_dyn, stands_dyn, starts_type_node};
use em_base::Token;
use em_grammar::{Weak, Written};
use em_read::{Cursor, Stop, Want, list_of, sign, sign_if, stands, token};
use em_tree::{Bound, FragmentKind, Listed, Output, Path, Piece, Shared, TypeTree};
use sqlite_items::{Boxed, Items};
use std::alloc::Global;

/// A type that owes no `>`.
pub fn plain_type<I: TypeInside>(inside: &I, input: &mut Cursor<'_>) -> Result<TypeTree, Stop>
    requires { I.ready inside.now }
    ensures { Reads (spec.plain_type (I.inner inside.now) (I.paths inside.now) input.old.rest.now) result input.new.rest.now }
{
    let (found, _owes) = inside.ty(input, false)?;
    Ok(found)
}

/// The `>` of a `Box`, or nothing where a `>>` behind it closes this one and an outer one.
fn closing(
    alloc: Global,
    input: &mut Cursor<'_>,
    may: bool,
    owed: bool,
) -> Result<(Option<Shared<Token>>, bool), Stop>
    ensures { Reads (spec.closing may owed input.old.rest.now) result input.new.rest.now }
{
    if owed {
        let close = sign(alloc, input, Written::Shr)?;
        return Ok((Some(close), false));
    }
    if may && stands(input, Written::Shr) {
        return Ok((None, true));
    }
    let close = sign(alloc, input, Written::Gt)?;
    Ok((Some(close), false))
}

/// What stands behind the path that a type begins with.
#[derive(Drop)]
pub enum Suffix {
    Nothing,
    /// Of `Box`.
    Angle {
        open: Shared<Token>,
        inner: Boxed<TypeTree>,
        close: Option<Shared<Token>>,
    },
    /// Of the `dyn` of 2015.
    Object(Bound),
    Call(Call),
}

/// `(A, B) -> C` behind a path.
#[derive(Drop)]
pub struct Call {
    pub open: Shared<Token>,
    pub inputs: Items<Listed<TypeTree>>,
    pub close: Shared<Token>,
    pub output: Output,
}

fn angle_suffix<I: TypeInside>(
    alloc: Global,
    inside: &I,
    input: &mut Cursor<'_>,
    may: bool,
) -> Result<(Suffix, bool), Stop>
    requires { I.ready inside.now }
    ensures { Gives part.suffix_of (spec.angle_suffix (I.inner inside.now) (I.paths inside.now) may input.old.rest.now) result input.new.rest.now }
{
    let open = sign(alloc, input, Written::Lt)?;
    let (found, owed) = inside.ty(input, true)?;
    let (close, owes) = closing(alloc, input, may, owed)?;
    let inner = Boxed::new(alloc, found)?;
    Ok((Suffix::Angle { open, inner, close }, owes))
}

/// The output of a call, if there is one.
fn output_part<I: TypeInside>(
    alloc: Global,
    inside: &I,
    input: &mut Cursor<'_>,
    may: bool,
) -> Result<(Output, bool), Stop>
    requires { I.ready inside.now }
    ensures { Reads (spec.output_part (I.inner inside.now) (I.paths inside.now) may input.old.rest.now) result input.new.rest.now }
{
    let start = input.rest;
    match arrow_part(alloc, inside, input, may) {
        Err(Stop::Absent) => {
            input.rest = start;
            Ok((Output::Unit, false))
        }
        found => found,
    }
}

fn arrow_part<I: TypeInside>(
    alloc: Global,
    inside: &I,
    input: &mut Cursor<'_>,
    may: bool,
) -> Result<(Output, bool), Stop>
    requires { I.ready inside.now }
    ensures { Reads (part.arrow_part (I.inner inside.now may) input.old.rest.now) result input.new.rest.now }
{
    let arrow = sign(alloc, input, Written::RArrow)?;
    let (found, owes) = inside.ty(input, may)?;
    let ty = Boxed::new(alloc, found)?;
    Ok((Output::Type { arrow, ty }, owes))
}

/// The types between the parentheses of a call.
fn inputs<I: TypeInside>(
    alloc: Global,
    inside: &I,
    input: &mut Cursor<'_>,
) -> Result<Items<Listed<TypeTree>>, Stop>
    requires { I.ready inside.now }
    ensures { Reads (read.list_of (spec.plain_type (I.inner inside.now) (I.paths inside.now)) input.old.rest.now) result input.new.rest.now }
{
    list_of(alloc, input, |input| plain_type(inside, input))
}

fn call_parts<I: TypeInside>(
    alloc: Global,
    inside: &I,
    input: &mut Cursor<'_>,
    may: bool,
) -> Result<(Call, bool), Stop>
    requires { I.ready inside.now }
    ensures { Gives part.call_of (spec.call_parts (I.inner inside.now) (I.paths inside.now) may input.old.rest.now) result input.new.rest.now }
{
    let open = sign(alloc, input, Written::OpenParen)?;
    let inputs = inputs(alloc, inside, input)?;
    let close = sign(alloc, input, Written::CloseParen)?;
    let (output, owes) = output_part(alloc, inside, input, may)?;
    Ok((
        Call {
            open,
            inputs,
            close,
            output,
        },
        owes,
    ))
}

fn called(path: Path, call: Call) -> Bound
    ensures { result ≡ part.called path call }
{
    Bound::Call {
        path,
        open: call.open,
        inputs: call.inputs,
        close: call.close,
        output: call.output,
    }
}

/// A trait of a trait object (Reference, "Trait objects").
#[tactic(auto, unfolding(em_grammar::specs::TypeReader::bound_node))]
fn bound_node<I: TypeInside>(
    alloc: Global,
    inside: &I,
    input: &mut Cursor<'_>,
    may: bool,
) -> Result<(Bound, bool), Stop>
    requires { I.ready inside.now }
    ensures { Reads (spec.bound_node (I.inner inside.now) (I.paths inside.now) may input.old.rest.now) result input.new.rest.now }
{
    let path = inside.path(input)?;
    let start = input.rest;
    match call_parts(alloc, inside, input, may) {
        Ok((call, owes)) => Ok((called(path, call), owes)),
        Err(Stop::Absent) => {
            input.rest = start;
            Ok((Bound::Path(path), false))
        }
        Err(stop) => Err(stop),
    }
}

fn object_suffix<I: TypeInside>(
    alloc: Global,
    inside: &I,
    input: &mut Cursor<'_>,
    may: bool,
) -> Result<(Suffix, bool), Stop>
    requires { I.ready inside.now }
    ensures { Gives part.suffix_of (spec.object_suffix (I.inner inside.now) (I.paths inside.now) may input.old.rest.now) result input.new.rest.now }
{
    if !follows_dyn(input) {
        return Err(Stop::Absent);
    }
    let (found, owes) = bound_node(alloc, inside, input, may)?;
    Ok((Suffix::Object(found), owes))
}

/// The parentheses of a trait object without `dyn`, if they stand there.
fn call_suffix<I: TypeInside>(
    alloc: Global,
    inside: &I,
    input: &mut Cursor<'_>,
    path: &Path,
    may: bool,
) -> Result<(Suffix, bool), Stop>
    requires { I.ready inside.now }
    ensures { Gives part.suffix_of (part.call_suffix (I.inner inside.now) (I.paths inside.now) may path.now input.old.rest.now) result input.new.rest.now }
{
    if !callable(path) {
        return Ok((Suffix::Nothing, false));
    }
    let start = input.rest;
    match call_parts(alloc, inside, input, may) {
        Ok((call, owes)) => Ok((Suffix::Call(call), owes)),
        Err(Stop::Absent) => {
            input.rest = start;
            Ok((Suffix::Nothing, false))
        }
        Err(stop) => Err(stop),
    }
}

/// What may stand behind a path that isn't `Box`.
fn dyn_suffix<I: TypeInside>(
    alloc: Global,
    inside: &I,
    input: &mut Cursor<'_>,
    path: &Path,
    may: bool,
) -> Result<(Suffix, bool), Stop>
    requires { I.ready inside.now }
    ensures { Gives part.suffix_of (part.dyn_suffix (I.inner inside.now) (I.paths inside.now) may path.now input.old.rest.now) result input.new.rest.now }
{
    if !is_lone(Weak::Dyn, path) {
        return call_suffix(alloc, inside, input, path, may);
    }
    let start = input.rest;
    match object_suffix(alloc, inside, input, may) {
        Err(Stop::Absent) => {
            input.rest = start;
            call_suffix(alloc, inside, input, path, may)
        }
        found => found,
    }
}

fn path_suffix<I: TypeInside>(
    alloc: Global,
    inside: &I,
    input: &mut Cursor<'_>,
    path: &Path,
    may: bool,
) -> Result<(Suffix, bool), Stop>
    requires { I.ready inside.now }
    ensures { Gives part.suffix_of (spec.suffix (I.inner inside.now) (I.paths inside.now) may path.now input.old.rest.now) result input.new.rest.now }
{
    if !is_lone(Weak::Box, path) {
        return dyn_suffix(alloc, inside, input, path, may);
    }
    let start = input.rest;
    match angle_suffix(alloc, inside, input, may) {
        Err(Stop::Absent) => {
            input.rest = start;
            dyn_suffix(alloc, inside, input, path, may)
        }
        found => found,
    }
}

/// The type of a path and what stands behind it.
fn with_suffix(alloc: Global, suffix: Suffix, path: Path) -> Result<TypeTree, Stop>
    ensures made { IfOk result (λ t. t ≡ spec.with_suffix (part.suffix_as suffix) (spec.alone path) path) }
    ensures fails { IfErr result (λ e. e ≡ Refusal.NoMemory) }
{
    match suffix {
        Suffix::Nothing => Ok(TypeTree::Path(path)),
        Suffix::Angle { open, inner, close } => match lone_word(alloc, &path)? {
            Some(word) => Ok(TypeTree::Boxed {
                word,
                open,
                inner,
                close,
            }),
            None => Ok(TypeTree::Path(path)),
        },
        Suffix::Object(bound) => match lone_word(alloc, &path)? {
            Some(word) => Ok(TypeTree::Dyn {
                word,
                bound: Boxed::new(alloc, bound)?,
            }),
            None => Ok(TypeTree::Path(path)),
        },
        Suffix::Call(call) => Ok(TypeTree::Bare(Boxed::new(alloc, called(path, call))?)),
    }
}

/// A type that begins with a path.
#[tactic(auto, unfolding(em_grammar::specs::TypeReader::path_type))]
fn path_type<I: TypeInside>(
    alloc: Global,
    inside: &I,
    input: &mut Cursor<'_>,
    may: bool,
) -> Result<(TypeTree, bool), Stop>
    requires { I.ready inside.now }
    ensures { Reads (spec.path_type (I.inner inside.now) (I.paths inside.now) may input.old.rest.now) result input.new.rest.now }
{
    let path = inside.path(input)?;
    let (suffix, owes) = path_suffix(alloc, inside, input, &path, may)?;
    let found = with_suffix(alloc, suffix, path)?;
    Ok((found, owes))
}

/// `&T` (Reference, "Pointer types").
fn reference<I: TypeInside>(
    alloc: Global,
    inside: &I,
    input: &mut Cursor<'_>,
    may: bool,
) -> Result<(TypeTree, bool), Stop>
    requires { I.ready inside.now }
    ensures { Reads (spec.ref (I.inner inside.now may) input.old.rest.now) result input.new.rest.now }
{
    let amp = sign(alloc, input, Written::And)?;
    let word_mut = sign_if(alloc, input, Written::Mut)?;
    let (found, owes) = inside.ty(input, may)?;
    let inner = Boxed::new(alloc, found)?;
    Ok((
        TypeTree::Ref {
            amp,
            word_mut,
            inner,
        },
        owes,
    ))
}

/// `&&T`.
fn double_reference<I: TypeInside>(
    alloc: Global,
    inside: &I,
    input: &mut Cursor<'_>,
    may: bool,
) -> Result<(TypeTree, bool), Stop>
    requires { I.ready inside.now }
    ensures { Reads (spec.ref_ref (I.deeper inside.now may) input.old.rest.now) result input.new.rest.now }
{
    let amps = sign(alloc, input, Written::AndAnd)?;
    let word_mut = sign_if(alloc, input, Written::Mut)?;
    let (found, owes) = inside.deeper_ty(input, may)?;
    let inner = Boxed::new(alloc, found)?;
    Ok((
        TypeTree::RefRef {
            amps,
            word_mut,
            inner,
        },
        owes,
    ))
}

/// A slice or an array (Reference, "Slice types" and "Array types").
fn bracket<I: TypeInside>(
    alloc: Global,
    inside: &I,
    input: &mut Cursor<'_>,
) -> Result<(TypeTree, bool), Stop>
    requires { I.ready inside.now }
    ensures { Reads (spec.bracket (I.number inside.now) (spec.plain_type (I.inner inside.now) (I.paths inside.now)) input.old.rest.now) result input.new.rest.now }
{
    let open = sign(alloc, input, Written::OpenBracket)?;
    let found = plain_type(inside, input)?;
    let element = Boxed::new(alloc, found)?;
    if stands(input, Written::CloseBracket) {
        let close = sign(alloc, input, Written::CloseBracket)?;
        let tree = TypeTree::Slice {
            open,
            element,
            close,
        };
        return Ok((tree, false));
    }
    let semi = sign(alloc, input, Written::Semi)?;
    let length = inside.int(input)?;
    let close = sign(alloc, input, Written::CloseBracket)?;
    let tree = TypeTree::Array {
        open,
        element,
        semi,
        length,
        close,
    };
    Ok((tree, false))
}

fn unit(alloc: Global, input: &mut Cursor<'_>) -> Result<(TypeTree, bool), Stop>
    ensures { Reads (spec.unit input.old.rest.now) result input.new.rest.now }
{
    let open = sign(alloc, input, Written::OpenParen)?;
    let close = sign(alloc, input, Written::CloseParen)?;
    Ok((TypeTree::Unit { open, close }, false))
}

/// A trait object with `dyn`.
fn object<I: TypeInside>(
    alloc: Global,
    inside: &I,
    input: &mut Cursor<'_>,
    may: bool,
) -> Result<(TypeTree, bool), Stop>
    requires { I.ready inside.now }
    ensures { Reads (spec.dyn (spec.bound_node (I.inner inside.now) (I.paths inside.now) may) input.old.rest.now) result input.new.rest.now }
{
    let word = token(alloc, input, Want::Dyn)?;
    let (found, owes) = bound_node(alloc, inside, input, may)?;
    let bound = Boxed::new(alloc, found)?;
    Ok((TypeTree::Dyn { word, bound }, owes))
}

/// A fragment that is a type.
fn type_group<I: TypeInside>(
    alloc: Global,
    inside: &I,
    input: &mut Cursor<'_>,
) -> Result<(TypeTree, bool), Stop>
    requires { I.ready inside.now }
    ensures { Reads (spec.type_group (I.opens inside.now) input.old.rest.now) result input.new.rest.now }
{
    match input.rest {
        [Piece::Group(group), rest @ ..] if group.kind == FragmentKind::Ty => {
            let found = inside.opened(group.pieces.get().list.as_slice())?;
            input.rest = rest;
            let inner = Boxed::new(alloc, found)?;
            let group = group.share(alloc)?;
            Ok((TypeTree::Group { group, inner }, false))
        }
        _ => Err(Stop::Absent),
    }
}

/// A type that is no fragment, by its first piece.
#[tactic(auto, unfolding(em_grammar::specs::TypeReader::type_token))]
fn type_token<I: TypeInside>(
    alloc: Global,
    inside: &I,
    input: &mut Cursor<'_>,
    may: bool,
) -> Result<(TypeTree, bool), Stop>
    requires { I.ready inside.now }
    ensures { Reads (spec.type_token (I.number inside.now) (I.inner inside.now) (I.deeper inside.now) (I.paths inside.now) may input.old.rest.now) result input.new.rest.now }
{
    if stands(input, Written::And) {
        return reference(alloc, inside, input, may);
    }
    if stands(input, Written::AndAnd) {
        return double_reference(alloc, inside, input, may);
    }
    if stands(input, Written::OpenBracket) {
        return bracket(alloc, inside, input);
    }
    if stands(input, Written::OpenParen) {
        return unit(alloc, input);
    }
    if stands_dyn(input) {
        return object(alloc, inside, input, may);
    }
    path_type(alloc, inside, input, may)
}

/// A type.
#[tactic(auto, unfolding(em_grammar::specs::TypeReader::type_node))]
pub fn type_node<I: TypeInside>(
    alloc: Global,
    inside: &I,
    input: &mut Cursor<'_>,
    may: bool,
) -> Result<(TypeTree, bool), Stop>
    requires { I.ready inside.now }
    ensures { Reads (spec.type_node (I.number inside.now) (I.inner inside.now) (I.deeper inside.now) (I.paths inside.now) (I.opens inside.now) may input.old.rest.now) result input.new.rest.now }
{
    if starts_type_node(input) {
        return type_token(alloc, inside, input, may);
    }
    type_group(alloc, inside, input)
}
