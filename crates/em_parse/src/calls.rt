//! The calls of the parser, over what reads items, attributes, bodies and fragments.

ghost use Rattle.std.specs.Prelude.{◌≡◌, ◌≤◌, ◌<◌, List, [], ◌∷◌, drop, length, IfOk, IfErr, MatchBool};
ghost use Rattle.em_tree.specs.Nesting.{item_nesting};
ghost use Rattle.em_grammar.specs.Reader as read;
ghost use Rattle.em_grammar.specs.ExprKnot as knot;
ghost use Rattle.em_grammar.specs.FragmentLaws as law;
ghost use Rattle.em_grammar.specs.ItemReader as spec;
ghost use Rattle.em_read.specs.Parse.{Reads};
ghost use Rattle.em_grammar.specs.NestLaws.{node_nesting};
ghost use Rattle.em_parse.specs.Calls.{most, of_tokens, AreItems, Attributes, IsWhole, IsWholeBody, IsLongest};
ghost use Rattle.em_base.specs.declared.token.Token.{Token};
ghost use Rattle.em_tree.specs.Starts.{Pieces};
ghost use Rattle.em_tree.specs.declared.piece.Piece.TheVariants as piece;
ghost use Rattle.em_parse.specs.Answers.{FileRefuses, ItemsRefuse, BodyRefuses, FragmentRefuses};
ghost use Rattle.em_parse.specs.Parts.{refusal_of, Stops, ItemsStop};

use crate::error::ParseError;
use em_base::{Edition, List, NoMemory, Token, Tokens, between, rest_from};
use em_nesting::{
    block_within, body_within, expr_within, item_within, pat_within, path_within, stmt_within,
    top_pat_within, type_within,
};
use em_read::{Cursor, Stop};
use em_tree::{
    Body, FileAttribute, FileTree, FragError, Fragment, FragmentKind, FragmentNode, Item, Piece,
    PieceList, Shared, starts,
};
use sqlite_items::Items;
use std::alloc::Global;

/// How many nodes may stand in one another, and how many fragments.
const MOST: usize = 200;

/// Reads what the calls are of, with groups in one another and nodes in one another up to numbers.
pub trait Readers {
    fn item_in(
        &self,
        alloc: Global,
        input: &mut Cursor<'_>,
        groups: usize,
        depth: usize,
    ) -> Result<Item, Stop>
        ensures { Reads (spec.item_in groups depth input.old.rest.now) result input.new.rest.now };

    fn file_attributes(
        &self,
        alloc: Global,
        input: &mut Cursor<'_>,
        groups: usize,
    ) -> Result<Items<FileAttribute>, Stop>
        ensures { Reads (read.all_of (spec.file_attribute groups) input.old.rest.now) result input.new.rest.now };

    fn body_in(
        &self,
        alloc: Global,
        input: &mut Cursor<'_>,
        groups: usize,
        depth: usize,
    ) -> Result<Body, Stop>
        ensures { Reads (knot.body_in groups depth input.old.rest.now) result input.new.rest.now };

    fn prefix_in(
        &self,
        alloc: Global,
        input: &mut Cursor<'_>,
        kind: FragmentKind,
        edition: Edition,
        groups: usize,
        depth: usize,
    ) -> Result<FragmentNode, Stop>
        ensures { Reads (law.prefix_in kind edition groups depth input.old.rest.now) result input.new.rest.now };
}

/// An item that nests within the limit.
#[tactic(auto, using(crate::proofs::ItemLists::stops, crate::proofs::ItemLists::deep))]
fn item<R: Readers>(alloc: Global, readers: &R, input: &mut Cursor<'_>) -> Result<Item, Stop>
    ensures ok { IfOk result (λ x. (spec.item_in most most input.old.rest.now ≡ read.Found x input.new.rest.now) × (item_nesting x ≤ most)) }
    ensures err { IfErr result (λ why. Stops why input.old.rest.now) }
{
    em_grammar::items();
    let found = readers.item_in(alloc, input, MOST, MOST)?;
    if item_within(&found, MOST) {
        Ok(found)
    } else {
        Err(Stop::Deep)
    }
}

/// The items that the pieces are. The pieces that are left begin where it stops.
#[tactic(auto, using(crate::proofs::ItemLists::start, crate::proofs::ItemLists::more, crate::proofs::ItemLists::shorter))]
fn items<R: Readers>(alloc: Global, readers: &R, input: &mut Cursor<'_>) -> Result<List<Item>, Stop>
    ensures ok { IfOk result (λ items. AreItems input.old.rest.now items []) }
    ensures err { IfErr result (λ why. ItemsStop input.old.rest.now why input.new.rest.now) }
{
    em_grammar::items();
    em_grammar::items_nest();
    let mut found = List::new(alloc);
    while !input.rest.is_empty() {
        let start = input.rest;
        match item(alloc, readers, input) {
            Ok(item) => found.push(item)?,
            Err(stop) => {
                input.rest = start;
                return Err(stop);
            }
        }
    }
    Ok(found)
}

/// The attributes at the front of a file.
#[tactic(auto, using(crate::proofs::FileHeads::heads, crate::proofs::FileHeads::only_memory))]
fn attributes<R: Readers>(
    alloc: Global,
    readers: &R,
    input: &mut Cursor<'_>,
) -> Result<Items<FileAttribute>, NoMemory>
    requires { (tokens : List Token) × (input.old.rest.now ≡ of_tokens tokens) }
    ensures { IfOk result (λ found. Attributes input.old.rest.now found input.new.rest.now) }
{
    em_grammar::attributes();
    match readers.file_attributes(alloc, input, MOST) {
        Ok(found) => Ok(found),
        Err(stop) => {
            let is_memory = matches!(stop, Stop::NoMemory);
            prove!(is_memory);
            Err(NoMemory)
        }
    }
}

/// The tokens as pieces, which share their texts.
fn pieces_of(alloc: Global, tokens: &[Token]) -> Result<List<Piece>, NoMemory>
    ensures { IfOk result (λ pieces. pieces ≡ of_tokens tokens.now) }
{
    let mut pieces = List::new(alloc);
    for token in tokens {
        let token = token.share(alloc)?;
        pieces.push(Piece::Token(token))?;
    }
    Ok(pieces)
}

/// The place of the first piece in a file.
fn offset_of(pieces: &[Piece]) -> u32
    ensures { (first : Token) (rest : Pieces) → pieces.now ≡ piece.Token first ∷ rest → result ≡ first.span.start }
{
    match pieces {
        [Piece::Token(token), ..] => token.span.start,
        [Piece::Group(group), ..] => group.outer.start,
        [] => 0,
    }
}

/// The only tree of the tokens of a file, or the token where an item should begin and none does that is within the limit.
#[tactic(auto, using(crate::proofs::Places::no_item, crate::proofs::Places::deep_item))]
pub fn file_of<R: Readers>(
    alloc: Global,
    readers: &R,
    tokens: &Tokens,
) -> Result<FileTree, ParseError>
    ensures ok { IfOk result (IsWhole tokens.now.list) }
    ensures err { IfErr result (FileRefuses tokens.now.list) }
{
    let pieces = pieces_of(alloc, tokens.list.as_slice())?;
    let mut input = Cursor {
        rest: pieces.as_slice(),
    };
    let attributes = attributes(alloc, readers, &mut input)?;
    match items(alloc, readers, &mut input) {
        Ok(items) => Ok(FileTree {
            attributes,
            items: Items::from_vec(items.into_vec()),
        }),
        Err(Stop::NoMemory) => Err(ParseError::NoMemory),
        Err(Stop::Absent) => Err(ParseError::NoItem {
            offset: offset_of(input.rest),
        }),
        Err(Stop::Deep) => Err(ParseError::Depth {
            offset: offset_of(input.rest),
        }),
    }
}

/// The only items that the pieces are, none for none.
pub fn items_of<R: Readers>(
    alloc: Global,
    readers: &R,
    pieces: &List<Piece>,
) -> Result<List<Item>, FragError>
    ensures ok { IfOk result (λ items. AreItems pieces.now items []) }
    ensures err { IfErr result (ItemsRefuse pieces.now) }
{
    let mut input = Cursor {
        rest: pieces.as_slice(),
    };
    match items(alloc, readers, &mut input) {
        Ok(items) => Ok(items),
        Err(Stop::NoMemory) => Err(FragError::NoMemory),
        Err(Stop::Absent) => Err(FragError::Broken),
        Err(Stop::Deep) => Err(FragError::Depth),
    }
}

/// The only statements, and the tail if there is one, that the pieces are.
#[tactic(auto, using(crate::proofs::WholeBodies::whole))]
pub fn body_of<R: Readers>(
    alloc: Global,
    readers: &R,
    pieces: &List<Piece>,
) -> Result<Body, FragError>
    ensures ok { IfOk result (IsWholeBody pieces.now) }
    ensures err { IfErr result (BodyRefuses pieces.now) }
{
    em_grammar::bodies();
    em_grammar::exprs_nest();
    let mut input = Cursor {
        rest: pieces.as_slice(),
    };
    let body = match readers.body_in(alloc, &mut input, MOST, MOST) {
        Ok(body) => body,
        Err(stop) => return Err(refusal(stop)),
    };
    if !body_within(&body, MOST) {
        return Err(FragError::Depth);
    }
    match input.rest {
        [] => Ok(body),
        _ => Err(FragError::Broken),
    }
}

fn refusal(stop: Stop) -> FragError
    ensures { result ≡ refusal_of stop }
{
    match stop {
        Stop::NoMemory => FragError::NoMemory,
        Stop::Absent => FragError::Broken,
        Stop::Deep => FragError::Depth,
    }
}

/// Whether a fragment nests within the limit.
fn node_within(node: &FragmentNode) -> bool
    ensures { MatchBool result (node_nesting node.now ≤ most) (most < node_nesting node.now) }
{
    match node {
        FragmentNode::Ident(_) | FragmentNode::Tt(_) | FragmentNode::Literal(_) => true,
        FragmentNode::Block(block) => block_within(block.get(), MOST),
        FragmentNode::Expr(tree) => expr_within(tree, MOST),
        FragmentNode::Stmt(tree) => stmt_within(tree, MOST),
        FragmentNode::Ty(tree) => type_within(tree, MOST),
        FragmentNode::Path(tree) => path_within(tree, MOST),
        FragmentNode::Pat(tree) => top_pat_within(tree, MOST),
        FragmentNode::PatParam(tree) => pat_within(tree, MOST),
        FragmentNode::Item(tree) => item_within(tree, MOST),
    }
}

/// The same pieces, which share their texts.
fn shared(alloc: Global, pieces: &[Piece]) -> Result<Shared<PieceList>, NoMemory>
    ensures { IfOk result (λ found. found.list ≡ pieces.now) }
{
    let mut list = Items::new(alloc);
    for piece in pieces {
        let piece = match piece {
            Piece::Token(token) => Piece::Token(token.share(alloc)?),
            Piece::Group(group) => Piece::Group(group.share(alloc)?),
        };
        list.push(piece)?;
    }
    Shared::new(alloc, PieceList { list })
}

/// The longest fragment of a kind that the pieces from an index on begin with.
#[tactic(auto, using(crate::proofs::Longest::longest))]
pub fn fragment_of<R: Readers>(
    alloc: Global,
    readers: &R,
    kind: FragmentKind,
    edition: Edition,
    pieces: &List<Piece>,
    from: usize,
) -> Result<Fragment, FragError>
    requires { from ≤ length pieces.now }
    ensures ok { IfOk result (IsLongest kind edition (drop from pieces.now)) }
    ensures err { IfErr result (FragmentRefuses kind edition (drop from pieces.now)) }
{
    em_grammar::prefixes();
    em_grammar::fragments_nest();
    let rest = rest_from(pieces.as_slice(), from);
    if !starts(kind, edition, rest) {
        return Err(FragError::CannotStart);
    }
    let mut input = Cursor { rest };
    let node = match readers.prefix_in(alloc, &mut input, kind, edition, MOST, MOST) {
        Ok(node) => node,
        Err(stop) => return Err(refusal(stop)),
    };
    if !node_within(&node) {
        return Err(FragError::Depth);
    }
    let taken = rest.len() - input.rest.len();
    match shared(alloc, between(rest, 0, taken)) {
        Ok(pieces) => Ok(Fragment {
            node,
            taken,
            kind,
            edition,
            pieces,
        }),
        Err(NoMemory) => Err(FragError::NoMemory),
    }
}
