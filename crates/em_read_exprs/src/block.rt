//! Blocks and what they are made of (Reference, "Block expressions").

ghost use Rattle.std.specs.Prelude.{◌≡◌, ◌∷◌, IfOk, IfErr};
ghost use Rattle.em_read.specs.declared.stop.Stop.TheVariants as Refusal;
ghost use Rattle.em_tree.specs.declared.expr.Stmt.{out-Stmt};
ghost use Rattle.em_grammar.specs.declared.sort.Written.TheVariants as word;
ghost use Rattle.em_grammar.specs.Sets.{is_sign, next, tokens, only};
ghost use Rattle.em_grammar.specs.Reader as read;
ghost use Rattle.em_grammar.specs.Reader.{mapped, seq};
ghost use Rattle.em_grammar.specs.ExprSets as sets;
ghost use Rattle.em_grammar.specs.StmtReader as spec;
ghost use Rattle.em_read.specs.Parse.{Reads};
ghost use Rattle.em_read_exprs.specs.Rows as part;

use crate::inside::{Inside, Start};
use crate::opens::Opens;
use crate::shape::has_braces;
use crate::stmt::{expr_stmt, let_stmt, plain_stmt};
use crate::stmt_sets::{starts_expr, starts_plain_stmt};
use em_base::Token;
use em_grammar::{Written, is_sign};
use em_read::{Cursor, Stop, rows, sign, sign_if, stands};
use em_tree::{Block, Body, Expr, FragmentKind, Group, MacroCall, Piece, Shared, Stmt};
use sqlite_items::{Boxed, Items};
use std::alloc::Global;

// ---- groups

fn is_stmt_group(group: &Group) -> bool
    ensures { result ≡ spec.is_stmt_group group.now }
{
    matches!(group.kind, FragmentKind::Stmt)
}

fn is_block_group(group: &Group) -> bool
    ensures { result ≡ spec.is_block_group group.now }
{
    matches!(group.kind, FragmentKind::Block)
}

/// A group of the kind `stmt`, and the statement that it is.
fn group_stmt<O: Opens>(
    alloc: Global,
    opens: &O,
    input: &mut Cursor<'_>,
) -> Result<(Group, Stmt), Stop>
    requires { O.ready opens.now }
    ensures { Reads (read.group spec.is_stmt_group (O.stmts opens.now) input.old.rest.now) result input.new.rest.now }
{
    match input.rest {
        [Piece::Group(group), rest @ ..] if is_stmt_group(group) => {
            let inner = opens.opened_stmt(group.pieces.get().list.as_slice())?;
            input.rest = rest;
            let group = group.share(alloc)?;
            Ok((group, inner))
        }
        _ => Err(Stop::Absent),
    }
}

/// A group of the kind `block`, and the block that it is.
fn group_block<O: Opens>(
    alloc: Global,
    opens: &O,
    input: &mut Cursor<'_>,
) -> Result<(Group, Block<Body>), Stop>
    requires { O.ready opens.now }
    ensures { Reads (read.group spec.is_block_group (O.blocks opens.now) input.old.rest.now) result input.new.rest.now }
{
    match input.rest {
        [Piece::Group(group), rest @ ..] if is_block_group(group) => {
            let inner = opens.opened_block(group.pieces.get().list.as_slice())?;
            input.rest = rest;
            let group = group.share(alloc)?;
            Ok((group, inner))
        }
        _ => Err(Stop::Absent),
    }
}

fn stmt_fragment<O: Opens>(alloc: Global, opens: &O, input: &mut Cursor<'_>) -> Result<Stmt, Stop>
    requires { O.ready opens.now }
    ensures { Reads (mapped spec.stmt_group_of (read.group spec.is_stmt_group (O.stmts opens.now)) input.old.rest.now) result input.new.rest.now }
{
    let (group, inner) = group_stmt(alloc, opens, input)?;
    Ok(Stmt::Group {
        group,
        inner: Boxed::new(alloc, inner)?,
        semi: None,
    })
}

fn tail_fragment<O: Opens>(alloc: Global, opens: &O, input: &mut Cursor<'_>) -> Result<Expr, Stop>
    requires { O.ready opens.now }
    ensures { Reads (mapped spec.tail_group_of (read.group spec.is_stmt_group (O.tails opens.now)) input.old.rest.now) result input.new.rest.now }
{
    match input.rest {
        [Piece::Group(group), rest @ ..] if is_stmt_group(group) => {
            let found = opens.opened_tail(group.pieces.get().list.as_slice())?;
            input.rest = rest;
            let inner = Boxed::new(alloc, found)?;
            let group = group.share(alloc)?;
            Ok(Expr::Group { group, inner })
        }
        _ => Err(Stop::Absent),
    }
}

/// A statement without its `;`.
#[tactic(auto, unfolding(em_grammar::specs::StmtReader::bare_stmt))]
pub fn bare_stmt<I: Inside, O: Opens>(
    alloc: Global,
    inside: &I,
    opens: &O,
    input: &mut Cursor<'_>,
) -> Result<Stmt, Stop>
    requires inside { I.ready inside.now }
    requires opens { O.ready opens.now }
    ensures { Reads (spec.bare_stmt (I.readers inside.now) (O.stmts opens.now) input.old.rest.now) result input.new.rest.now }
{
    if starts_plain_stmt(input) {
        return plain_stmt(alloc, inside, input);
    }
    stmt_fragment(alloc, opens, input)
}

/// The tail that a fragment of the kind `stmt` is.
#[tactic(auto, unfolding(em_grammar::specs::StmtReader::tail_stmt))]
pub fn tail_stmt<I: Inside, O: Opens>(
    alloc: Global,
    inside: &I,
    opens: &O,
    input: &mut Cursor<'_>,
) -> Result<Expr, Stop>
    requires inside { I.ready inside.now }
    requires opens { O.ready opens.now }
    ensures { Reads (spec.tail_stmt (I.readers inside.now) (O.tails opens.now) input.old.rest.now) result input.new.rest.now }
{
    if starts_expr(input) {
        return inside.expr(input, Start::InBlock, 0, false);
    }
    tail_fragment(alloc, opens, input)
}

// ---- rows

/// A call with a `;`, which is an expression if it has braces.
fn call_with_semi(alloc: Global, call: MacroCall, semi: Option<Shared<Token>>) -> Result<Stmt, Stop>
    ensures is { IfOk result (λ y. y ≡ spec.semi_call (sets.has_braces call) call semi) }
    ensures fails { IfErr result (λ e. e ≡ Refusal.NoMemory) }
{
    if has_braces(&call) {
        let value = Boxed::new(alloc, Expr::Macro(call))?;
        Ok(Stmt::Expr { value, semi })
    } else {
        Ok(Stmt::Macro { call, semi })
    }
}

/// The statement with this `;`.
#[tactic(auto, using(crate::proofs::Rows::with_mention, crate::proofs::Rows::with_let, crate::proofs::Rows::with_call, crate::proofs::Rows::with_expr, crate::proofs::Rows::with_block, crate::proofs::Rows::with_group))]
fn with_semi(alloc: Global, stmt: Stmt, semi: Shared<Token>) -> Result<Stmt, Stop>
    ensures is { IfOk result (λ y. y ≡ spec.with_semi (out-Stmt stmt) (Some semi)) }
    ensures fails { IfErr result (λ e. e ≡ Refusal.NoMemory) }
{
    let semi = Some(semi);
    match stmt {
        Stmt::Mention {
            word,
            underscore,
            equals,
            refs,
            ..
        } => Ok(Stmt::Mention {
            word,
            underscore,
            equals,
            refs,
            semi,
        }),
        Stmt::Let {
            word,
            pat,
            annotation,
            equals,
            value,
            ..
        } => Ok(Stmt::Let {
            word,
            pat,
            annotation,
            equals,
            value,
            semi,
        }),
        Stmt::Macro { call, .. } => call_with_semi(alloc, call, semi),
        Stmt::Expr { value, .. } => Ok(Stmt::Expr { value, semi }),
        Stmt::BlockLike { value, .. } => Ok(Stmt::BlockLike { value, semi }),
        Stmt::Group { group, inner, .. } => Ok(Stmt::Group { group, inner, semi }),
    }
}

/// The statement with this `;`, if there is one.
fn ended(alloc: Global, stmt: Stmt, semi: Option<Shared<Token>>) -> Result<Stmt, Stop>
    ensures is { IfOk result (λ y. y ≡ part.ended stmt semi) }
    ensures fails { IfErr result (λ e. e ≡ Refusal.NoMemory) }
{
    match semi {
        Some(semi) => with_semi(alloc, stmt, semi),
        None => Ok(stmt),
    }
}

/// A `let` with its `;`.
fn let_row<I: Inside>(alloc: Global, inside: &I, input: &mut Cursor<'_>) -> Result<Stmt, Stop>
    requires { I.ready inside.now }
    ensures { Reads (part.let_row (I.readers inside.now) input.old.rest.now) result input.new.rest.now }
{
    let stmt = let_stmt(alloc, inside, input)?;
    let semi = sign(alloc, input, Written::Semi)?;
    with_semi(alloc, stmt, semi)
}

/// An expression, and its `;` if it has one.
fn expr_row<I: Inside>(alloc: Global, inside: &I, input: &mut Cursor<'_>) -> Result<Stmt, Stop>
    requires { I.ready inside.now }
    ensures { Reads (part.expr_row (I.readers inside.now) input.old.rest.now) result input.new.rest.now }
{
    let stmt = expr_stmt(alloc, inside, input)?;
    let semi = sign_if(alloc, input, Written::Semi)?;
    ended(alloc, stmt, semi)
}

/// A fragment of the kind `stmt`, and its `;`.
fn sent<O: Opens>(alloc: Global, opens: &O, input: &mut Cursor<'_>) -> Result<Stmt, Stop>
    requires { O.ready opens.now }
    ensures { Reads (part.sent (O.stmts opens.now) input.old.rest.now) result input.new.rest.now }
{
    let (group, inner) = group_stmt(alloc, opens, input)?;
    let inner = Boxed::new(alloc, inner)?;
    let semi = sign(alloc, input, Written::Semi)?;
    Ok(Stmt::Group {
        group,
        inner,
        semi: Some(semi),
    })
}

/// A fragment of the kind `stmt` at the end.
fn tail_row<O: Opens>(alloc: Global, opens: &O, input: &mut Cursor<'_>) -> Result<Stmt, Stop>
    requires { O.ready opens.now }
    ensures { Reads (part.last (O.tails opens.now) input.old.rest.now) result input.new.rest.now }
{
    let tail = tail_fragment(alloc, opens, input)?;
    let value = Boxed::new(alloc, tail)?;
    Ok(Stmt::Expr { value, semi: None })
}

/// Whether a `;` is behind the next piece.
fn semi_behind(input: &Cursor<'_>) -> bool
    ensures { result ≡ next (tokens (only word.Semi)) (spec.behind_first input.now.rest.now) }
{
    match input.rest {
        [_, Piece::Token(token), ..] => is_sign(Written::Semi, token),
        _ => false,
    }
}

/// A fragment of the kind `stmt`, and a `;`, or at the end.
fn fragment_row<O: Opens>(alloc: Global, opens: &O, input: &mut Cursor<'_>) -> Result<Stmt, Stop>
    requires { O.ready opens.now }
    ensures { Reads (part.stmt_group (O.stmts opens.now) (O.tails opens.now) input.old.rest.now) result input.new.rest.now }
{
    if !semi_behind(input) {
        return tail_row(alloc, opens, input);
    }
    let start = input.rest;
    match sent(alloc, opens, input) {
        Ok(stmt) => Ok(stmt),
        Err(Stop::Absent) => {
            input.rest = start;
            tail_row(alloc, opens, input)
        }
        Err(stop) => Err(stop),
    }
}

fn row<I: Inside, O: Opens>(
    alloc: Global,
    inside: &I,
    opens: &O,
    input: &mut Cursor<'_>,
) -> Result<Stmt, Stop>
    requires inside { I.ready inside.now }
    requires opens { O.ready opens.now }
    ensures { Reads (part.row (I.readers inside.now) (O.stmts opens.now) (O.tails opens.now) input.old.rest.now) result input.new.rest.now }
{
    if stands(input, Written::Let) {
        return let_row(alloc, inside, input);
    }
    if starts_expr(input) {
        return expr_row(alloc, inside, input);
    }
    fragment_row(alloc, opens, input)
}

/// Whether the statement has no `;`.
fn is_bare(stmt: &Stmt) -> bool
    ensures { result ≡ part.is_bare stmt.now }
{
    match stmt {
        Stmt::Mention { semi, .. } => semi.is_none(),
        Stmt::Let { semi, .. } => semi.is_none(),
        Stmt::Macro { semi, .. } => semi.is_none(),
        Stmt::Expr { semi, .. } => semi.is_none(),
        Stmt::BlockLike { semi, .. } => semi.is_none(),
        Stmt::Group { semi, .. } => semi.is_none(),
    }
}

/// Whether the statement needs no `;`.
fn is_closing(stmt: &Stmt) -> bool
    ensures { result ≡ spec.closing (out-Stmt stmt.now) }
{
    match stmt {
        Stmt::BlockLike { .. } => true,
        Stmt::Macro { call, .. } => has_braces(call),
        _ => false,
    }
}

/// Whether another row may follow.
fn closed(stmt: &Stmt) -> bool
    ensures { result ≡ part.closed stmt.now }
{
    !is_bare(stmt) || is_closing(stmt)
}

fn stmt_rows<I: Inside, O: Opens>(
    alloc: Global,
    inside: &I,
    opens: &O,
    input: &mut Cursor<'_>,
) -> Result<Items<Stmt>, Stop>
    requires inside { I.ready inside.now }
    requires opens { O.ready opens.now }
    ensures { Reads (part.rows (I.readers inside.now) (O.stmts opens.now) (O.tails opens.now) input.old.rest.now) result input.new.rest.now }
{
    rows(
        alloc,
        input,
        |stmt| closed(stmt),
        |input| row(alloc, inside, opens, input),
    )
}

// ---- blocks

/// The tail that a statement without a `;` is.
#[tactic(auto, using(crate::proofs::Rows::call_tail, crate::proofs::Rows::expr_tail, crate::proofs::Rows::block_tail))]
fn tail_of(alloc: Global, stmt: Stmt) -> Result<Option<Boxed<Expr>>, Stop>
    ensures is { IfOk result (λ x. x ≡ spec.tail_of (out-Stmt stmt)) }
    ensures fails { IfErr result (λ e. e ≡ Refusal.NoMemory) }
{
    match stmt {
        Stmt::Macro { call, .. } => {
            let value = Boxed::new(alloc, Expr::Macro(call))?;
            Ok(Some(value))
        }
        Stmt::Expr { value, .. } => Ok(Some(value)),
        Stmt::BlockLike { value, .. } => Ok(Some(value)),
        _ => Ok(None),
    }
}

/// The body that rows are.
#[tactic(auto, using(crate::proofs::Rows::no_rows, crate::proofs::Rows::rows_tail, crate::proofs::Rows::rows_ended))]
fn body_of(alloc: Global, mut rows: Items<Stmt>) -> Result<Body, Stop>
    ensures is { IfOk result (λ y. y ≡ part.body_of rows) }
    ensures fails { IfErr result (λ e. e ≡ Refusal.NoMemory) }
{
    let Some(last) = rows.pop() else {
        return Ok(Body {
            stmts: rows,
            tail: None,
        });
    };
    if is_bare(&last) {
        let tail = tail_of(alloc, last)?;
        return Ok(Body { stmts: rows, tail });
    }
    rows.push(last)?;
    Ok(Body {
        stmts: rows,
        tail: None,
    })
}

/// The statements of a block, and its tail if there is one.
#[tactic(auto, using(crate::proofs::Rows::body_at))]
pub fn body<I: Inside, O: Opens>(
    alloc: Global,
    inside: &I,
    opens: &O,
    input: &mut Cursor<'_>,
) -> Result<Body, Stop>
    requires inside { I.ready inside.now }
    requires opens { O.ready opens.now }
    ensures { Reads (spec.body (I.readers inside.now) (O.stmts opens.now) (O.tails opens.now) input.old.rest.now) result input.new.rest.now }
{
    let rows = stmt_rows(alloc, inside, opens, input)?;
    body_of(alloc, rows)
}

/// A body between its braces.
fn braces<I: Inside, O: Opens>(
    alloc: Global,
    inside: &I,
    opens: &O,
    input: &mut Cursor<'_>,
) -> Result<Block<Body>, Stop>
    requires inside { I.ready inside.now }
    requires opens { O.ready opens.now }
    ensures { Reads (mapped part.braces_of (seq (read.token (is_sign word.OpenBrace)) (seq (spec.body (I.readers inside.now) (O.stmts opens.now) (O.tails opens.now)) (read.token (is_sign word.CloseBrace)))) input.old.rest.now) result input.new.rest.now }
{
    let open = sign(alloc, input, Written::OpenBrace)?;
    let body = body(alloc, inside, opens, input)?;
    let close = sign(alloc, input, Written::CloseBrace)?;
    Ok(Block {
        groups: Items::new(alloc),
        open,
        body,
        close,
    })
}

/// The groups with one around them.
fn within(alloc: Global, outer: Group, inner: Items<Group>) -> Result<Items<Group>, Stop>
    ensures is { IfOk result (λ gs. gs ≡ outer ∷ inner) }
    ensures fails { IfErr result (λ e. e ≡ Refusal.NoMemory) }
{
    let mut groups = Items::new(alloc);
    groups.push(outer)?;
    groups.append(inner)?;
    Ok(groups)
}

fn block_fragment<O: Opens>(
    alloc: Global,
    opens: &O,
    input: &mut Cursor<'_>,
) -> Result<Block<Body>, Stop>
    requires { O.ready opens.now }
    ensures { Reads (mapped spec.group_block_of (read.group spec.is_block_group (O.blocks opens.now)) input.old.rest.now) result input.new.rest.now }
{
    let (group, inner) = group_block(alloc, opens, input)?;
    let Block {
        groups,
        open,
        body,
        close,
    } = inner;
    let groups = within(alloc, group, groups)?;
    Ok(Block {
        groups,
        open,
        body,
        close,
    })
}

/// A block, or a fragment that is one.
#[tactic(auto, using(crate::proofs::Rows::block_at))]
pub fn block_node<I: Inside, O: Opens>(
    alloc: Global,
    inside: &I,
    opens: &O,
    input: &mut Cursor<'_>,
) -> Result<Block<Body>, Stop>
    requires inside { I.ready inside.now }
    requires opens { O.ready opens.now }
    ensures { Reads (spec.block_node (I.readers inside.now) (O.stmts opens.now) (O.tails opens.now) (O.blocks opens.now) input.old.rest.now) result input.new.rest.now }
{
    if stands(input, Written::OpenBrace) {
        return braces(alloc, inside, opens, input);
    }
    block_fragment(alloc, opens, input)
}
