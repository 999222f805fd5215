//! The calls of the parser.

ghost use Rattle.std.specs.Prelude.{◌≤◌, [], drop, length, IfOk, IfErr};
ghost use Rattle.em_parse.specs.Calls.{AreItems, IsWhole, IsWholeBody, IsLongest};
ghost use Rattle.em_parse.specs.Answers.{FileRefuses, ItemsRefuse, BodyRefuses, FragmentRefuses};

use crate::calls::{body_of, file_of, fragment_of, items_of};
use crate::error::ParseError;
use crate::trees::Trees;
use em_base::{Edition, List, Tokens};
use em_tree::{Body, FileTree, FragError, Fragment, FragmentKind, Item, Piece};
use std::alloc::Global;

/// The only tree of the tokens of a file: its attributes and items (Reference, "Crates and source files"). Answers at the
/// token where an item should begin, with its offset in bytes: `Depth` where reading one comes to a place with more than
/// 200 nodes open, or what is read nests deeper, and `NoItem` where it doesn't and no item of any depth stands there. The
/// tree shares the texts of the tokens.
pub fn parse_file(alloc: Global, tokens: &Tokens) -> Result<FileTree, ParseError>
    ensures ok { IfOk result (IsWhole tokens.now.list) }
    ensures err { IfErr result (FileRefuses tokens.now.list) }
{
    file_of(alloc, &Trees, tokens)
}

/// The only list of items that the pieces are, empty for no pieces (Reference, "Items"). Answers `Depth` where reading an
/// item comes to a place with more than 200 nodes or fragments open, or what is read nests deeper, and `Broken` where it
/// doesn't and no item of any depth stands there. The items share the texts of the pieces.
pub fn parse_items(alloc: Global, pieces: &List<Piece>) -> Result<List<Item>, FragError>
    ensures ok { IfOk result (λ items. AreItems pieces.now items []) }
    ensures err { IfErr result (ItemsRefuse pieces.now) }
{
    items_of(alloc, &Trees, pieces)
}

/// The only statements, and the tail if there is one, that the pieces are: what a block has between its braces
/// (Reference, "Block expressions"). Answers `Depth` where reading them comes to a place with more than 200 nodes or
/// fragments open, or what is read nests deeper, and `Broken` where it doesn't and they are no body of any depth. The body
/// shares the texts of the pieces.
pub fn parse_body(alloc: Global, pieces: &List<Piece>) -> Result<Body, FragError>
    ensures ok { IfOk result (IsWholeBody pieces.now) }
    ensures err { IfErr result (BodyRefuses pieces.now) }
{
    body_of(alloc, &Trees, pieces)
}

/// The longest fragment of a kind that the pieces from an index on begin with, and the number of its pieces (Reference,
/// "Metavariables"). The index is at most the number of the pieces. The edition is that of the word that names the kind, and
/// matters for `pat` alone. Answers `CannotStart` where no piece is there or it starts none of the kind, `Depth` where reading
/// one comes to a place with more than 200 nodes or fragments open, be it behind a shorter one, or what is read nests deeper,
/// and `Broken` where it doesn't and no fragment of the kind and of any depth is there. The fragment shares the texts of the
/// pieces.
pub fn parse_fragment(
    alloc: Global,
    kind: FragmentKind,
    edition: Edition,
    pieces: &List<Piece>,
    from: usize,
) -> Result<Fragment, FragError>
    requires { from ≤ length pieces.now }
    ensures ok { IfOk result (IsLongest kind edition (drop from pieces.now)) }
    ensures err { IfErr result (FragmentRefuses kind edition (drop from pieces.now)) }
{
    fragment_of(alloc, &Trees, kind, edition, pieces, from)
}
