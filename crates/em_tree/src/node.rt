ghost use Rattle.std.specs.Prelude.{◌≡◌, Some, IfOk};
ghost use Rattle.em_tree.specs.Adding.{Adds};
ghost use Rattle.em_tree.specs.Yields.{SpanOf, first_of, last_of, pieces, reach, tokens};

use crate::expr::{Expr, Stmt};
use crate::first::{first_expr, first_pat, first_path, first_stmt, first_type};
use crate::item::Item;
use crate::item_place::{first_item, last_item};
use crate::last::{last_expr, last_pat, last_path, last_stmt, last_type};
use crate::pat::Pat;
use crate::put_expr::{add_expr, add_stmt};
use crate::put_item::add_item;
use crate::types::{Path, TypeTree};
use crate::writer::Writer;
use em_base::{List, NoMemory, Span, Token};
use std::alloc::Global;

/// A tree of one of the categories that have a yield and a place.
#[derive(Clone, Copy)]
pub enum Node<'a> {
    Item(&'a Item),
    Expr(&'a Expr),
    Pat(&'a Pat),
    Ty(&'a TypeTree),
    Path(&'a Path),
    Stmt(&'a Stmt),
}

#[tactic(auto, unfolding(crate::specs::Yields::tokens))]
fn add_node(out: &mut Writer, node: Node<'_>)
    ensures { Adds out.old (tokens node.entry) out.new }
{
    match node {
        Node::Item(tree) => add_item(out, tree),
        Node::Expr(tree) => add_expr(out, tree),
        Node::Pat(tree) => out.pat(tree),
        Node::Ty(tree) => out.ty(tree),
        Node::Path(tree) => out.path(tree),
        Node::Stmt(tree) => add_stmt(out, tree),
    }
}

/// The tokens of a tree in order. A fragment stands for its own tokens.
pub fn tokens_of(alloc: Global, node: Node<'_>) -> Result<List<Token>, NoMemory>
    ensures { IfOk result (λ ts. ts ≡ tokens node.entry) }
{
    let mut out = Writer {
        alloc,
        list: List::new(alloc),
        failed: false,
    };
    add_node(&mut out, node);
    if out.failed {
        return Err(NoMemory);
    }
    Ok(out.list)
}

#[tactic(auto, unfolding(crate::specs::Yields::pieces))]
fn first_piece(node: Node<'_>) -> Span
    ensures { first_of (pieces node.entry) ≡ Some result }
{
    match node {
        Node::Item(tree) => first_item(tree),
        Node::Expr(tree) => first_expr(tree),
        Node::Pat(tree) => first_pat(tree),
        Node::Ty(tree) => first_type(tree),
        Node::Path(tree) => first_path(tree),
        Node::Stmt(tree) => first_stmt(tree),
    }
}

#[tactic(auto, unfolding(crate::specs::Yields::pieces))]
fn last_piece(node: Node<'_>) -> Span
    ensures { last_of (pieces node.entry) ≡ Some result }
{
    match node {
        Node::Item(tree) => last_item(tree),
        Node::Expr(tree) => last_expr(tree),
        Node::Pat(tree) => last_pat(tree),
        Node::Ty(tree) => last_type(tree),
        Node::Path(tree) => last_path(tree),
        Node::Stmt(tree) => last_stmt(tree),
    }
}

fn reach(first: Span, last: Span) -> Span
    ensures { result ≡ reach first last }
{
    if first.file == last.file && last.end >= first.start {
        return Span {
            file: first.file,
            start: first.start,
            end: last.end,
        };
    }
    first
}

/// The place of a tree, from its first piece to its last in bytes of their file. A fragment counts by its outer place.
/// Where the two pieces lie in different files, or the last ends before the first starts, it is the first piece's place.
/// Takes no memory.
#[tactic(auto, using(crate::proofs::Ends::span_of))]
pub fn place_of(node: Node<'_>) -> Span
    ensures { SpanOf (pieces node.entry) result }
{
    reach(first_piece(node), last_piece(node))
}
