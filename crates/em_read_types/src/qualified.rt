//! Paths that are no fragments (Reference, "Paths").

ghost use Rattle.std.specs.Prelude.{ℕ, ◌≡◌, ◌+◌, IfOk, IfErr};
ghost use Rattle.em_tree.specs.Starts.{Pieces};
ghost use Rattle.em_tree.specs.declared.types.TypeTree.{TypeTree};
ghost use Rattle.em_grammar.specs.PathReader as spec;
ghost use Rattle.em_grammar.specs.PathReader.{plain_path_in};
ghost use Rattle.em_grammar.specs.Reader.{Read};
ghost use Rattle.em_grammar.specs.Sets.{next};
ghost use Rattle.em_grammar.specs.TypeReader.{plain_type_in};
ghost use Rattle.em_read.specs.declared.stop.Stop.TheVariants as Refusal;
ghost use Rattle.em_read.specs.Gives.{Gives};
ghost use Rattle.em_read.specs.Parse.{Reads};
ghost use Rattle.em_read_types.specs.PathParts as part;
ghost use Rattle.em_read_types.specs.TypeKnot.{Knot};

use crate::type_sets::starts_segments;
use em_base::Token;
use em_grammar::Written;
use em_read::{Cursor, Stop, Want, plain_path, segments, sign, stands, token};
use em_tree::{Path, Qualified, Shared, TypeTree};
use sqlite_items::Boxed;
use std::alloc::Global;

/// Reads what stands inside of a path.
pub trait PathInside {
    ghost ready: { Self → Type 0 };

    ghost types: { Self → Pieces → Read TypeTree };

    ghost number: { Self → ℕ };

    fn ty(&self, input: &mut Cursor<'_>) -> Result<TypeTree, Stop>
        requires { ready self.now }
        ensures { Reads (types self.now input.old.rest.now) result input.new.rest.now };

    /// A path without `<`.
    fn plain(&self, input: &mut Cursor<'_>) -> Result<Path, Stop>
        requires { ready self.now }
        ensures { Reads (plain_path_in (number self.now) input.old.rest.now) result input.new.rest.now };
}

/// `>::name` of a qualified path.
#[derive(Drop)]
pub struct NamePart {
    pub close: Shared<Token>,
    pub separator: Shared<Token>,
    pub name: Shared<Token>,
}

fn name_part_of(alloc: Global, input: &mut Cursor<'_>) -> Result<NamePart, Stop>
    ensures { Gives part.name_of (part.name_part input.old.rest.now) result input.new.rest.now }
{
    let close = sign(alloc, input, Written::Gt)?;
    let separator = sign(alloc, input, Written::PathSep)?;
    let name = token(alloc, input, Want::Name)?;
    Ok(NamePart {
        close,
        separator,
        name,
    })
}

/// `as Trait>::name` of a qualified path.
#[derive(Drop)]
pub struct TraitPart {
    pub word: Shared<Token>,
    pub of_trait: Path,
    pub rest: NamePart,
}

fn trait_part_of<I: PathInside>(
    alloc: Global,
    inside: &I,
    input: &mut Cursor<'_>,
) -> Result<TraitPart, Stop>
    requires { I.ready inside.now }
    ensures { Gives part.trait_of (part.trait_part (plain_path_in (I.number inside.now)) input.old.rest.now) result input.new.rest.now }
{
    let word = sign(alloc, input, Written::As)?;
    let of_trait = inside.plain(input)?;
    let rest = name_part_of(alloc, input)?;
    Ok(TraitPart {
        word,
        of_trait,
        rest,
    })
}

/// The path of its parts.
fn qualified_of(
    alloc: Global,
    opening: Shared<Token>,
    self_type: TypeTree,
    behind: TraitPart,
) -> Result<Path, Stop>
    ensures made { IfOk result (λ x. x ≡ part.qualified_path opening self_type behind) }
    ensures fails { IfErr result (λ e. e ≡ Refusal.NoMemory) }
{
    let found = Qualified {
        open: opening,
        self_type,
        word: behind.word,
        of_trait: behind.of_trait,
        close: behind.rest.close,
        separator: behind.rest.separator,
        name: behind.rest.name,
    };
    Ok(Path::Qualified(Boxed::new(alloc, found)?))
}

/// `<T as Trait>::name` (Reference, "Qualified paths").
fn qualified<I: PathInside>(alloc: Global, inside: &I, input: &mut Cursor<'_>) -> Result<Path, Stop>
    requires { I.ready inside.now }
    ensures { Reads (spec.qualified (I.types inside.now) (plain_path_in (I.number inside.now)) input.old.rest.now) result input.new.rest.now }
{
    let open = sign(alloc, input, Written::Lt)?;
    let self_type = inside.ty(input)?;
    let behind = trait_part_of(alloc, inside, input)?;
    let found = qualified_of(alloc, open, self_type, behind)?;
    Ok(found)
}

/// Whether a path that is no fragment begins here.
pub fn starts_path_token(input: &Cursor<'_>) -> bool
    ensures { result ≡ next part.path_token_first input.now.rest.now }
{
    starts_segments(input) || stands(input, Written::Lt)
}

/// A path that is no fragment.
pub fn path_token<I: PathInside>(
    alloc: Global,
    inside: &I,
    input: &mut Cursor<'_>,
) -> Result<Path, Stop>
    requires { I.ready inside.now }
    ensures { Reads (part.path_token (I.types inside.now) (plain_path_in (I.number inside.now)) input.old.rest.now) result input.new.rest.now }
{
    if starts_segments(input) {
        return Ok(Path::Plain(segments(alloc, input)?));
    }
    qualified(alloc, inside, input)
}

/// Reads what stands inside of a path with a function that reads types.
#[derive(Clone, Copy)]
pub struct PathTypes<'a, F> {
    pub alloc: Global,
    pub groups: usize,
    pub depth: usize,
    pub types: &'a F,
}

impl<
    'a,
    F: Fn(Global, &mut Cursor<'_>, usize, usize, bool) -> Result<(TypeTree, bool), Stop>,
> PathInside for PathTypes<'a, F> {
    ghost ready = { λ s. Knot (s.groups + s.depth + 1) (F.pre s.types.now) (F.post s.types.now) };

    ghost types = { λ s. plain_type_in s.groups s.depth };

    ghost number = { λ s. s.groups };

    fn ty(&self, input: &mut Cursor<'_>) -> Result<TypeTree, Stop> {
        let (found, _owes) = (self.types)(self.alloc, input, self.groups, self.depth, false)?;
        Ok(found)
    }

    fn plain(&self, input: &mut Cursor<'_>) -> Result<Path, Stop> {
        plain_path(self.alloc, input, self.groups)
    }
}
