//! Trees as short texts. What an operator joins stands in parentheses, and most other forms are told by their names.

use em_base::{NoMemory, Token};
use em_tree::{
    Alternative, Block, Body, Expr, FragmentNode, Item, ItemBody, Listed, Literal, Node, Pat, Path,
    Stmt, TokenTree, TopPat, TypeTree, tokens_of,
};
use std::alloc::Global;

/// A blank and a word.
fn word(out: &mut String, word: &str) -> Result<(), NoMemory> {
    out.push(' ')?;
    out.push_str(word)?;
    Ok(())
}

fn token(out: &mut String, token: &Token) -> Result<(), NoMemory> {
    out.push_str(token.text.as_str())?;
    Ok(())
}

/// The tokens of an expression with a blank between two of them.
fn tokens(alloc: Global, out: &mut String, tree: &Expr) -> Result<(), NoMemory> {
    let mut is_first = true;
    for part in tokens_of(alloc, Node::Expr(tree))?.as_slice() {
        if !is_first {
            out.push(' ')?;
        }
        is_first = false;
        token(out, part)?;
    }
    Ok(())
}

#[cycle(exprs)]
fn list(alloc: Global, out: &mut String, list: &[Listed<Expr>]) -> Result<(), NoMemory> {
    let mut is_first = true;
    for part in list {
        if !is_first {
            out.push_str(", ")?;
        }
        is_first = false;
        expr(alloc, out, &part.item)?;
    }
    Ok(())
}

/// What stands before an expression, and the expression.
#[cycle(exprs)]
fn opened(alloc: Global, out: &mut String, form: &str, first: &Expr) -> Result<(), NoMemory> {
    out.push('(')?;
    out.push_str(form)?;
    expr(alloc, out, first)
}

/// An operator and the expression behind it.
#[cycle(exprs)]
fn behind(alloc: Global, out: &mut String, operator: &Token, right: &Expr) -> Result<(), NoMemory> {
    out.push(' ')?;
    token(out, operator)?;
    out.push(' ')?;
    expr(alloc, out, right)?;
    out.push(')')?;
    Ok(())
}

/// A sign or a word before an expression.
#[cycle(exprs)]
fn before(alloc: Global, out: &mut String, operator: &str, operand: &Expr) -> Result<(), NoMemory> {
    out.push('(')?;
    out.push_str(operator)?;
    out.push(' ')?;
    expr(alloc, out, operand)?;
    out.push(')')?;
    Ok(())
}

/// An expression. A form without operands is its tokens.
#[cycle(exprs)]
pub fn expr(alloc: Global, out: &mut String, tree: &Expr) -> Result<(), NoMemory> {
    match tree {
        Expr::Binary {
            left,
            operator,
            right,
        }
        | Expr::Assign {
            left,
            operator,
            right,
        } => {
            opened(alloc, out, "", left.get())?;
            behind(alloc, out, operator.get(), right.get())
        }
        Expr::Unary { operator, operand } => before(
            alloc,
            out,
            operator.get().text.as_str(),
            operand.get(),
        ),
        Expr::Ref { operand, .. } => before(alloc, out, "&", operand.get()),
        Expr::RefRef { operand, .. } => before(alloc, out, "&&", operand.get()),
        Expr::Closure { body, .. } => before(alloc, out, "||", body.get()),
        Expr::Return {
            value: Some(value),
            ..
        } => before(alloc, out, "return", value.get()),
        Expr::Paren { inner, .. } => before(alloc, out, "paren", inner.get()),
        Expr::Group { inner, .. } => before(alloc, out, "group", inner.get()),
        Expr::MethodCall {
            receiver,
            arguments: found,
            ..
        } => {
            opened(alloc, out, "method ", receiver.get())?;
            arguments(alloc, out, found.as_slice())
        }
        Expr::Call {
            callee,
            arguments: found,
            ..
        } => {
            opened(alloc, out, "call ", callee.get())?;
            arguments(alloc, out, found.as_slice())
        }
        Expr::Field { base, .. } => before(alloc, out, "field", base.get()),
        Expr::Place { base, .. } => before(alloc, out, "place", base.get()),
        Expr::Index { base, index, .. } => {
            out.push_str("(index ")?;
            expr(alloc, out, base.get())?;
            out.push(' ')?;
            expr(alloc, out, index.get())?;
            out.push(')')?;
            Ok(())
        }
        _ => tokens(alloc, out, tree),
    }
}

#[cycle(exprs)]
fn arguments(alloc: Global, out: &mut String, found: &[Listed<Expr>]) -> Result<(), NoMemory> {
    out.push_str(" [")?;
    list(alloc, out, found)?;
    out.push_str("])")?;
    Ok(())
}

/// A statement's name, and its expression.
fn stmt(alloc: Global, out: &mut String, tree: &Stmt) -> Result<(), NoMemory> {
    match tree {
        Stmt::Mention { .. } => word(out, "mention"),
        Stmt::Let { value, .. } => {
            word(out, "let ")?;
            expr(alloc, out, value.get())
        }
        Stmt::Macro { .. } => word(out, "macro"),
        Stmt::Expr { value, .. } => {
            word(out, "expr ")?;
            expr(alloc, out, value.get())
        }
        Stmt::BlockLike { .. } => word(out, "block"),
        Stmt::Group { .. } => word(out, "group"),
    }
}

/// The statements of a body with a `;` after each, and its tail.
pub fn body(alloc: Global, out: &mut String, tree: &Body) -> Result<(), NoMemory> {
    for part in tree.stmts.as_slice() {
        stmt(alloc, out, part)?;
        out.push(';')?;
    }
    if let Some(tail) = &tree.tail {
        word(out, "tail ")?;
        expr(alloc, out, tail.get())?;
    }
    Ok(())
}

fn item_name<I>(tree: &ItemBody<I>) -> &'static str {
    match tree {
        ItemBody::ExternCrate { .. } => "ExternCrate",
        ItemBody::Use { .. } => "Use",
        ItemBody::UseList { .. } => "UseList",
        ItemBody::ModFile { .. } => "ModFile",
        ItemBody::ModBlock { .. } => "ModBlock",
        ItemBody::Fn { .. } => "Fn",
        ItemBody::Struct { .. } => "Struct",
        ItemBody::Enum { .. } => "Enum",
        ItemBody::Trait { .. } => "Trait",
        ItemBody::Impl { .. } => "Impl",
        ItemBody::Const { .. } => "Const",
        ItemBody::Rules { .. } => "Rules",
        ItemBody::Macro { .. } => "Macro",
    }
}

fn item(out: &mut String, tree: &Item) -> Result<(), NoMemory> {
    match tree {
        Item::Plain { body, .. } => word(out, item_name(body)),
        Item::Group { .. } => word(out, "Group"),
    }
}

/// The names of items.
pub fn items(out: &mut String, list: &[Item]) -> Result<(), NoMemory> {
    for part in list {
        item(out, part)?;
    }
    Ok(())
}

fn type_name(tree: &TypeTree) -> &'static str {
    match tree {
        TypeTree::Path(_) => "Path",
        TypeTree::Boxed { .. } => "Boxed",
        TypeTree::Ref { .. } => "Ref",
        TypeTree::RefRef { .. } => "RefRef",
        TypeTree::Array { .. } => "Array",
        TypeTree::Slice { .. } => "Slice",
        TypeTree::Unit { .. } => "Unit",
        TypeTree::Dyn { .. } => "Dyn",
        TypeTree::Bare(_) => "Bare",
        TypeTree::Group { .. } => "Group",
    }
}

fn path_name(tree: &Path) -> &'static str {
    match tree {
        Path::Plain(_) => "Plain",
        Path::Qualified(_) => "Qualified",
        Path::Group { .. } => "Group",
    }
}

fn pat_name(tree: &Pat) -> &'static str {
    match tree {
        Pat::Wild(_) => "Wild",
        Pat::Name { .. } => "Name",
        Pat::Literal(_) => "Literal",
        Pat::Range { .. } => "Range",
        Pat::Path(_) => "Path",
        Pat::Tuple { .. } => "Tuple",
        Pat::Struct { .. } => "Struct",
        Pat::Group { .. } => "Group",
    }
}

fn literal_name(tree: &Literal) -> &'static str {
    match tree {
        Literal::Token(_) => "Token",
        Literal::Negative { .. } => "Negative",
        Literal::Group { .. } => "Group",
    }
}

fn token_tree_name(tree: &TokenTree) -> &'static str {
    match tree {
        TokenTree::Token(_) => "Token",
        TokenTree::Group(_) => "Group",
        TokenTree::Delimited(_) => "Delimited",
    }
}

fn alternatives(out: &mut String, list: &[Alternative]) -> Result<(), NoMemory> {
    for part in list {
        if part.bar.is_some() {
            word(out, "|")?;
        }
        word(out, pat_name(&part.pat))?;
    }
    Ok(())
}

fn block(alloc: Global, out: &mut String, tree: &Block<Body>) -> Result<(), NoMemory> {
    for _ in tree.groups.as_slice() {
        word(out, "group")?;
    }
    body(alloc, out, &tree.body)
}

/// A fragment.
pub fn node(alloc: Global, out: &mut String, tree: &FragmentNode) -> Result<(), NoMemory> {
    match tree {
        FragmentNode::Ident(name) => word(out, name.get().text.as_str()),
        FragmentNode::Tt(tree) => word(out, token_tree_name(tree)),
        FragmentNode::Literal(tree) => word(out, literal_name(tree)),
        FragmentNode::Block(tree) => block(alloc, out, tree.get()),
        FragmentNode::Expr(tree) => {
            out.push(' ')?;
            expr(alloc, out, tree)
        }
        FragmentNode::Stmt(tree) => stmt(alloc, out, tree),
        FragmentNode::Ty(tree) => word(out, type_name(tree)),
        FragmentNode::Path(tree) => word(out, path_name(tree)),
        FragmentNode::Pat(TopPat::Alternatives(list)) => alternatives(out, list.as_slice()),
        FragmentNode::Pat(TopPat::Group { .. }) => word(out, "Group"),
        FragmentNode::PatParam(tree) => word(out, pat_name(tree)),
        FragmentNode::Item(tree) => item(out, tree),
    }
}
