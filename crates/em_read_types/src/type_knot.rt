//! Types and paths, with groups and nodes in one another up to given numbers.

ghost use Rattle.std.specs.Prelude.{◌≡◌, ◌+◌, ◌-◌, ◌<◌, IfOk, IfErr};
ghost use Rattle.em_grammar.specs.Reader.{entire};
ghost use Rattle.em_grammar.specs.PathReader.{path_group_of};
ghost use Rattle.em_grammar.specs.TypeReader as spec;
ghost use Rattle.em_read.specs.declared.stop.Stop.TheVariants as Refusal;
ghost use Rattle.em_read.specs.Parse.{Reads, ReadsHere, opened_by};
ghost use Rattle.em_read_types.specs.PathParts as part;
ghost use Rattle.em_read_types.specs.TypeKnot.{Knot, no_type};

use crate::qualified::{PathTypes, path_token, starts_path_token};
use crate::type_inside::TypeInside;
use crate::type_sets::starts_type;
use crate::types::type_node;
use em_read::{Allowed, Cursor, Stop, unsigned};
use em_tree::{FragmentKind, Group, Literal, Path, Piece, TypeTree};
use sqlite_items::Boxed;
use std::alloc::Global;

/// The path that the pieces of a group are.
#[cycle(paths)]
#[tactic(auto, using(em_read::proofs::Groups::opened_none, em_read::proofs::Groups::opened_some, crate::proofs::TypeSteps::less))]
fn path_inside<
    F: Fn(Global, &mut Cursor<'_>, usize, usize, bool) -> Result<(TypeTree, bool), Stop>,
>(alloc: Global, pieces: &[Piece], groups: usize, depth: usize, types: &F) -> Result<Path, Stop>
    requires { Knot (groups + depth + 1) (F.pre types.now) (F.post types.now) }
    ensures { ReadsHere (entire (opened_by (λ n. spec.path_in n depth) groups pieces.now)) result }
{
    if groups == 0 {
        return Err(Stop::Deep);
    }
    let mut input = Cursor { rest: pieces };
    let found = path_over(alloc, &mut input, groups - 1, depth, types)?;
    match input.rest {
        [] => Ok(found),
        _ => Err(Stop::Absent),
    }
}

/// The path that a fragment is.
fn grouped(alloc: Global, group: &Group, inner: Path) -> Result<Path, Stop>
    ensures made { IfOk result (λ x. x ≡ path_group_of (group.now, inner)) }
    ensures fails { IfErr result (λ e. e ≡ Refusal.NoMemory) }
{
    let inner = Boxed::new(alloc, inner)?;
    let group = group.share(alloc)?;
    Ok(Path::Group { group, inner })
}

/// A fragment that is a path.
#[cycle(paths)]
#[tactic(auto, using(crate::proofs::TypeSteps::group_read))]
fn path_group<F: Fn(Global, &mut Cursor<'_>, usize, usize, bool) -> Result<(TypeTree, bool), Stop>>(
    alloc: Global,
    input: &mut Cursor<'_>,
    groups: usize,
    depth: usize,
    types: &F,
) -> Result<Path, Stop>
    requires { Knot (groups + depth + 1) (F.pre types.now) (F.post types.now) }
    ensures { Reads (part.path_group (opened_by (λ n. spec.path_in n depth) groups) input.old.rest.now) result input.new.rest.now }
{
    match input.rest {
        [Piece::Group(group), rest @ ..] if group.kind == FragmentKind::Path => {
            let inner = path_inside(
                alloc,
                group.pieces.get().list.as_slice(),
                groups,
                depth,
                types,
            )?;
            let found = grouped(alloc, group, inner)?;
            input.rest = rest;
            Ok(found)
        }
        _ => Err(Stop::Absent),
    }
}

/// A path, whose types are read by a function.
#[cycle(paths)]
#[tactic(auto, using(crate::proofs::TypeSteps::token_path, crate::proofs::TypeSteps::group_path))]
fn path_over<F: Fn(Global, &mut Cursor<'_>, usize, usize, bool) -> Result<(TypeTree, bool), Stop>>(
    alloc: Global,
    input: &mut Cursor<'_>,
    groups: usize,
    depth: usize,
    types: &F,
) -> Result<Path, Stop>
    requires { Knot (groups + depth + 1) (F.pre types.now) (F.post types.now) }
    ensures { Reads (spec.path_in groups depth input.old.rest.now) result input.new.rest.now }
{
    if !starts_path_token(input) {
        return path_group(alloc, input, groups, depth, types);
    }
    let inside = PathTypes {
        alloc,
        groups,
        depth,
        types,
    };
    path_token(alloc, &inside, input)
}

/// Reads what stands inside of a type that is a node at a depth above 0, with a function that reads types.
#[derive(Clone, Copy)]
pub struct Types<F> {
    pub alloc: Global,
    pub groups: usize,
    pub depth: usize,
    pub types: F,
}

impl<
    F: Fn(Global, &mut Cursor<'_>, usize, usize, bool) -> Result<(TypeTree, bool), Stop>,
> TypeInside for Types<F> {
    ghost ready = { λ s. (0 < s.depth) × Knot (s.groups + s.depth) (F.pre s.types) (F.post s.types) };

    ghost inner = { λ s. spec.type_in s.groups (s.depth - 1) };

    ghost deeper = { λ s. spec.type_in s.groups (s.depth - 2) };

    ghost paths = { λ s. spec.path_in s.groups (s.depth - 1) };

    ghost opens = { λ s. opened_by (λ n. spec.plain_type_in n s.depth) s.groups };

    ghost number = { λ s. s.groups };

    fn ty(&self, input: &mut Cursor<'_>, may: bool) -> Result<(TypeTree, bool), Stop> {
        (self.types)(self.alloc, input, self.groups, self.depth - 1, may)
    }

    fn deeper_ty(&self, input: &mut Cursor<'_>, may: bool) -> Result<(TypeTree, bool), Stop> {
        (self.types)(
            self.alloc,
            input,
            self.groups,
            self.depth.saturating_sub(2),
            may,
        )
    }

    #[tactic(auto, using(crate::proofs::TypeSteps::less))]
    fn path(&self, input: &mut Cursor<'_>) -> Result<Path, Stop> {
        path_over(self.alloc, input, self.groups, self.depth - 1, &self.types)
    }

    fn int(&self, input: &mut Cursor<'_>) -> Result<Literal, Stop> {
        unsigned(self.alloc, input, Allowed::Integers, self.groups)
    }

    #[tactic(auto, using(em_read::proofs::Groups::opened_none, em_read::proofs::Groups::opened_some))]
    fn opened(&self, pieces: &[Piece]) -> Result<TypeTree, Stop> {
        if self.groups == 0 {
            return Err(Stop::Deep);
        }
        let mut input = Cursor { rest: pieces };
        let (found, _owes) = (self.types)(
            self.alloc,
            &mut input,
            self.groups - 1,
            self.depth,
            false,
        )?;
        match input.rest {
            [] => Ok(found),
            _ => Err(Stop::Absent),
        }
    }
}

/// A type, with groups in one another and nodes in one another up to these numbers. Where `may` is set, it may owe the
/// `>` that a `>>` behind it closes; the result tells whether it does.
#[tactic(auto, using(crate::proofs::TypeSteps::type_none, crate::proofs::TypeSteps::type_at))]
pub fn type_tree(
    alloc: Global,
    input: &mut Cursor<'_>,
    groups: usize,
    depth: usize,
    may: bool,
) -> Result<(TypeTree, bool), Stop>
    ensures { Reads (spec.type_in groups depth may input.old.rest.now) result input.new.rest.now }
{
    if depth == 0 {
        return no_type(input);
    }
    let inside = Types {
        alloc,
        groups,
        depth,
        types: type_tree,
    };
    type_node(alloc, &inside, input, may)
}

/// Where no type may nest: whether one stands there.
pub fn no_type(input: &Cursor<'_>) -> Result<(TypeTree, bool), Stop>
    ensures { Reads (no_type input.now.rest.now) result input.now.rest.now }
{
    if starts_type(input) {
        Err(Stop::Deep)
    } else {
        Err(Stop::Absent)
    }
}

/// A type that owes no `>`.
pub fn plain_type_in(
    alloc: Global,
    input: &mut Cursor<'_>,
    groups: usize,
    depth: usize,
) -> Result<TypeTree, Stop>
    ensures { Reads (spec.plain_type_in groups depth input.old.rest.now) result input.new.rest.now }
{
    let (found, _owes) = type_tree(alloc, input, groups, depth, false)?;
    Ok(found)
}

/// A path, with groups in one another and the nodes of its types in one another up to these numbers.
pub fn path_in(
    alloc: Global,
    input: &mut Cursor<'_>,
    groups: usize,
    depth: usize,
) -> Result<Path, Stop>
    ensures { Reads (spec.path_in groups depth input.old.rest.now) result input.new.rest.now }
{
    path_over(alloc, input, groups, depth, &type_tree)
}
