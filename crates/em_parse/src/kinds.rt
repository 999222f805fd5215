//! Fragments of macros by their kinds (Reference, "Metavariables").

ghost use Rattle.std.specs.Prelude.{false};
ghost use Rattle.em_tree.specs.Starts as start;
ghost use Rattle.em_tree.specs.declared.fragment.FragmentNode.TheVariants as node;
ghost use Rattle.em_grammar.specs.ExprKnot as knot;
ghost use Rattle.em_grammar.specs.ExprSets as from;
ghost use Rattle.em_grammar.specs.FragmentLaws as law;
ghost use Rattle.em_grammar.specs.FragmentReader as spec;
ghost use Rattle.em_grammar.specs.ItemReader as items;
ghost use Rattle.em_grammar.specs.LiteralReader as literals;
ghost use Rattle.em_grammar.specs.PatReader as pats;
ghost use Rattle.em_grammar.specs.Reader as read;
ghost use Rattle.em_grammar.specs.TypeReader as types;
ghost use Rattle.em_read.specs.Parse.{Reads};

use crate::fragment::{pat_fragment, staying, token_tree, word};
use em_base::Edition;
use em_read::{Cursor, Stop, signed};
use em_read_exprs::Start;
use em_read_trees::{block_in, expr_in, item_in, stmt_in};
use em_read_types::{pat_in, path_in};
use em_tree::{FragmentKind, FragmentNode, starts};
use sqlite_items::Boxed;
use std::alloc::Global;

fn ident(alloc: Global, input: &mut Cursor<'_>) -> Result<FragmentNode, Stop>
    ensures { Reads (read.mapped node.Ident (read.token start.is_word) input.old.rest.now) result input.new.rest.now }
{
    let found = word(alloc, input)?;
    Ok(FragmentNode::Ident(found))
}

fn tree(alloc: Global, input: &mut Cursor<'_>) -> Result<FragmentNode, Stop>
    ensures { Reads (read.mapped node.Tt spec.token_tree input.old.rest.now) result input.new.rest.now }
{
    let found = token_tree(alloc, input)?;
    Ok(FragmentNode::Tt(found))
}

fn literal(alloc: Global, input: &mut Cursor<'_>, groups: usize) -> Result<FragmentNode, Stop>
    ensures { Reads (read.mapped node.Literal (literals.signed_in groups) input.old.rest.now) result input.new.rest.now }
{
    let found = signed(alloc, input, groups)?;
    Ok(FragmentNode::Literal(found))
}

fn block(
    alloc: Global,
    input: &mut Cursor<'_>,
    groups: usize,
    depth: usize,
) -> Result<FragmentNode, Stop>
    ensures { Reads (read.mapped node.Block (knot.block_in groups depth) input.old.rest.now) result input.new.rest.now }
{
    let found = block_in(alloc, input, groups, depth)?;
    let found = Boxed::new(alloc, found)?;
    Ok(FragmentNode::Block(found))
}

fn expr(
    alloc: Global,
    input: &mut Cursor<'_>,
    groups: usize,
    depth: usize,
) -> Result<FragmentNode, Stop>
    ensures { Reads (read.mapped node.Expr (knot.expr_in groups depth from.Anywhere 0 false) input.old.rest.now) result input.new.rest.now }
{
    let found = expr_in(alloc, input, groups, depth, Start::Anywhere, 0, false)?;
    Ok(FragmentNode::Expr(found))
}

fn stmt(
    alloc: Global,
    input: &mut Cursor<'_>,
    groups: usize,
    depth: usize,
) -> Result<FragmentNode, Stop>
    ensures { Reads (read.mapped node.Stmt (knot.stmt_in groups depth) input.old.rest.now) result input.new.rest.now }
{
    let found = stmt_in(alloc, input, groups, depth)?;
    Ok(FragmentNode::Stmt(found))
}

fn ty(
    alloc: Global,
    input: &mut Cursor<'_>,
    groups: usize,
    depth: usize,
) -> Result<FragmentNode, Stop>
    ensures { Reads (read.mapped node.Ty (λ i. spec.staying (types.plain_type_in groups depth i)) input.old.rest.now) result input.new.rest.now }
{
    let found = staying(alloc, input, groups, depth)?;
    Ok(FragmentNode::Ty(found))
}

fn path(
    alloc: Global,
    input: &mut Cursor<'_>,
    groups: usize,
    depth: usize,
) -> Result<FragmentNode, Stop>
    ensures { Reads (read.mapped node.Path (types.path_in groups depth) input.old.rest.now) result input.new.rest.now }
{
    let found = path_in(alloc, input, groups, depth)?;
    Ok(FragmentNode::Path(found))
}

fn pat_param(
    alloc: Global,
    input: &mut Cursor<'_>,
    groups: usize,
    depth: usize,
) -> Result<FragmentNode, Stop>
    ensures { Reads (read.mapped node.PatParam (pats.pat_in groups depth) input.old.rest.now) result input.new.rest.now }
{
    let found = pat_in(alloc, input, groups, depth)?;
    Ok(FragmentNode::PatParam(found))
}

fn item(
    alloc: Global,
    input: &mut Cursor<'_>,
    groups: usize,
    depth: usize,
) -> Result<FragmentNode, Stop>
    ensures { Reads (read.mapped node.Item (items.item_in groups depth) input.old.rest.now) result input.new.rest.now }
{
    let found = item_in(alloc, input, groups, depth)?;
    Ok(FragmentNode::Item(found))
}

/// A fragment of a kind, whether or not the first piece starts one.
fn by_kind(
    alloc: Global,
    input: &mut Cursor<'_>,
    kind: FragmentKind,
    edition: Edition,
    groups: usize,
    depth: usize,
) -> Result<FragmentNode, Stop>
    ensures { Reads (spec.by_kind law.readers kind edition groups depth input.old.rest.now) result input.new.rest.now }
{
    match kind {
        FragmentKind::Ident => ident(alloc, input),
        FragmentKind::Tt => tree(alloc, input),
        FragmentKind::Literal => literal(alloc, input, groups),
        FragmentKind::Block => block(alloc, input, groups, depth),
        FragmentKind::Expr => expr(alloc, input, groups, depth),
        FragmentKind::Stmt => stmt(alloc, input, groups, depth),
        FragmentKind::Ty => ty(alloc, input, groups, depth),
        FragmentKind::Path => path(alloc, input, groups, depth),
        FragmentKind::Pat => pat_fragment(alloc, input, edition, groups, depth),
        FragmentKind::PatParam => pat_param(alloc, input, groups, depth),
        FragmentKind::Item => item(alloc, input, groups, depth),
    }
}

/// The longest fragment of a kind whose word is of the edition, with groups in one another and nodes in one another up to
/// these numbers.
#[tactic(auto, unfolding(em_grammar::specs::FragmentReader::fragment_in))]
pub fn prefix_in(
    alloc: Global,
    input: &mut Cursor<'_>,
    kind: FragmentKind,
    edition: Edition,
    groups: usize,
    depth: usize,
) -> Result<FragmentNode, Stop>
    ensures { Reads (law.prefix_in kind edition groups depth input.old.rest.now) result input.new.rest.now }
{
    if !starts(kind, edition, input.rest) {
        return Err(Stop::Absent);
    }
    by_kind(alloc, input, kind, edition, groups, depth)
}
