//! The tokens of expressions, statements and blocks.

ghost use Rattle.std.specs.Prelude.{◌≡◌, [], ◌∷◌, ◌++◌, true, false};
ghost use Rattle.em_tree.specs.Parts.{arm_parts, block_parts, body_parts, condition_parts, each, else_if_parts, expr_parts, field_expr_parts, listed_parts, maybe, stmt_parts};
ghost use Rattle.em_tree.specs.Yields.{one, inside, opened};
ghost use Rattle.em_tree.specs.Adding.{Adds};

use crate::expr::{Arm, Block, Body, Condition, ElseIf, Expr, FieldExpr, Stmt};
use crate::parts::Listed;
use crate::writer::Writer;
use sqlite_items::Boxed;

#[cycle(exprs)]
pub(crate) fn add_expr(out: &mut Writer, part: &Expr)
    ensures { Adds out.old (expr_parts one inside opened part.now) out.new }
{
    match part {
        Expr::Literal(inner) => {
            out.token(inner.get());
        }
        Expr::Path(inner) => {
            out.path(inner);
        }
        Expr::Struct {
            path,
            open,
            fields,
            close,
        } => {
            out.path(path);
            out.token(open.get());
            add_field_exprs(out, fields.as_slice());
            out.token(close.get());
        }
        Expr::Paren { open, inner, close } => {
            out.token(open.get());
            add_expr(out, inner.get());
            out.token(close.get());
        }
        Expr::Array {
            open,
            elements,
            close,
        } => {
            out.token(open.get());
            add_exprs(out, elements.as_slice());
            out.token(close.get());
        }
        Expr::Repeat {
            open,
            element,
            semi,
            length,
            close,
        } => {
            out.token(open.get());
            add_expr(out, element.get());
            out.token(semi.get());
            out.literal(length);
            out.token(close.get());
        }
        Expr::Block(inner) => {
            add_block(out, inner.get());
        }
        Expr::If {
            word,
            condition,
            then,
            branches,
            word_else,
            otherwise,
        } => {
            out.token(word.get());
            add_condition(out, condition);
            add_block(out, then.get());
            add_branches(out, branches.as_slice());
            out.token_if(word_else);
            if let Some(block) = otherwise {
                add_block(out, block.get());
            }
        }
        Expr::Match {
            word,
            scrutinee,
            open,
            arms,
            close,
        } => {
            out.token(word.get());
            add_expr(out, scrutinee.get());
            out.token(open.get());
            add_arms(out, arms.as_slice());
            out.token(close.get());
        }
        Expr::While {
            word,
            condition,
            body,
        } => {
            out.token(word.get());
            add_expr(out, condition.get());
            add_block(out, body.get());
        }
        Expr::Loop { word, body } => {
            out.token(word.get());
            add_block(out, body.get());
        }
        Expr::For {
            word,
            pat,
            word_in,
            head,
            dots,
            end,
            body,
        } => {
            out.token(word.get());
            out.pat(pat.get());
            out.token(word_in.get());
            add_expr(out, head.get());
            out.token_if(dots);
            add_expr_if(out, end);
            add_block(out, body.get());
        }
        Expr::Closure {
            word_move,
            head,
            body,
        } => {
            out.token_if(word_move);
            out.closure_head(head);
            add_expr(out, body.get());
        }
        Expr::ClosureTo {
            word_move,
            head,
            arrow,
            output,
            body,
        } => {
            out.token_if(word_move);
            out.closure_head(head);
            out.token(arrow.get());
            out.ty(output.get());
            add_block(out, body.get());
        }
        Expr::Macro(inner) => {
            out.macro_call(inner);
        }
        Expr::Return { word, value } => {
            out.token(word.get());
            add_expr_if(out, value);
        }
        Expr::Break(inner) => {
            out.token(inner.get());
        }
        Expr::Continue(inner) => {
            out.token(inner.get());
        }
        Expr::MethodCall {
            receiver,
            dot,
            name,
            open,
            arguments,
            close,
        } => {
            add_expr(out, receiver.get());
            out.token(dot.get());
            out.token(name.get());
            out.token(open.get());
            add_exprs(out, arguments.as_slice());
            out.token(close.get());
        }
        Expr::Call {
            callee,
            open,
            arguments,
            close,
        } => {
            add_expr(out, callee.get());
            out.token(open.get());
            add_exprs(out, arguments.as_slice());
            out.token(close.get());
        }
        Expr::Field { base, dot, name } => {
            add_expr(out, base.get());
            out.token(dot.get());
            out.token(name.get());
        }
        Expr::Place { base, dot, number } => {
            add_expr(out, base.get());
            out.token(dot.get());
            out.literal(number);
        }
        Expr::Index {
            base,
            open,
            index,
            close,
        } => {
            add_expr(out, base.get());
            out.token(open.get());
            add_expr(out, index.get());
            out.token(close.get());
        }
        Expr::Unary { operator, operand } => {
            out.token(operator.get());
            add_expr(out, operand.get());
        }
        Expr::Ref {
            amp,
            word_mut,
            operand,
        } => {
            out.token(amp.get());
            out.token_if(word_mut);
            add_expr(out, operand.get());
        }
        Expr::RefRef {
            amps,
            word_mut,
            operand,
        } => {
            out.token(amps.get());
            out.token_if(word_mut);
            add_expr(out, operand.get());
        }
        Expr::Binary {
            left,
            operator,
            right,
        } => {
            add_expr(out, left.get());
            out.token(operator.get());
            add_expr(out, right.get());
        }
        Expr::Assign {
            left,
            operator,
            right,
        } => {
            add_expr(out, left.get());
            out.token(operator.get());
            add_expr(out, right.get());
        }
        Expr::Group { inner, .. } => {
            add_expr(out, inner.get());
        }
    }
}

#[cycle(exprs)]
pub(crate) fn add_expr_if(out: &mut Writer, part: &Option<Boxed<Expr>>)
    ensures { Adds out.old (maybe (expr_parts one inside opened) part.now) out.new }
{
    if let Some(inner) = part {
        add_expr(out, inner.get());
    }
}

#[cycle(exprs)]
pub(crate) fn add_exprs(out: &mut Writer, list: &[Listed<Expr>])
    ensures { Adds out.old (each (listed_parts one inside opened (expr_parts one inside opened)) list.now) out.new }
{
    for part in list {
        add_expr(out, &part.item);
        out.token_if(&part.comma);
    }
}

#[cycle(exprs)]
pub(crate) fn add_field_exprs(out: &mut Writer, list: &[Listed<FieldExpr<Expr>>])
    ensures { Adds out.old (each (listed_parts one inside opened (field_expr_parts one inside opened (expr_parts one inside opened))) list.now) out.new }
{
    for part in list {
        out.token(part.item.name.get());
        out.token_if(&part.item.colon);
        if let Some(value) = &part.item.value {
            add_expr(out, value);
        }
        out.token_if(&part.comma);
    }
}

#[cycle(exprs)]
pub(crate) fn add_condition(out: &mut Writer, part: &Condition<Boxed<Expr>>)
    ensures { Adds out.old (condition_parts one inside opened (expr_parts one inside opened) part.now) out.new }
{
    match part {
        Condition::Expr(inner) => {
            add_expr(out, inner.get());
        }
        Condition::Let {
            word,
            pat,
            equals,
            value,
        } => {
            out.token(word.get());
            out.top_pat(pat);
            out.token(equals.get());
            add_expr(out, value.get());
        }
    }
}

#[cycle(exprs)]
pub(crate) fn add_arms(out: &mut Writer, list: &[Arm<Expr>])
    ensures { Adds out.old (each (arm_parts one inside opened (expr_parts one inside opened)) list.now) out.new }
{
    for part in list {
        out.top_pat(&part.pat);
        out.token(part.arrow.get());
        add_expr(out, &part.body);
        out.token_if(&part.comma);
    }
}

#[cycle(exprs)]
pub(crate) fn add_block(out: &mut Writer, part: &Block<Body>)
    ensures { Adds out.old (block_parts one inside opened (body_parts one inside opened) part.now) out.new }
{
    out.token(part.open.get());
    add_body(out, &part.body);
    out.token(part.close.get());
}

#[cycle(exprs)]
pub(crate) fn add_branches(out: &mut Writer, list: &[ElseIf])
    ensures { Adds out.old (each (else_if_parts one inside opened) list.now) out.new }
{
    for part in list {
        add_branch(out, part);
    }
}

#[cycle(exprs)]
pub(crate) fn add_branch(out: &mut Writer, part: &ElseIf)
    ensures { Adds out.old (else_if_parts one inside opened part.now) out.new }
{
    out.token(part.word_else.get());
    out.token(part.word.get());
    add_condition(out, &part.condition);
    add_block(out, part.then.get());
}

#[cycle(exprs)]
pub(crate) fn add_stmt(out: &mut Writer, part: &Stmt)
    ensures { Adds out.old (stmt_parts one inside opened part.now) out.new }
{
    match part {
        Stmt::Mention {
            word,
            underscore,
            equals,
            refs,
            semi,
        } => {
            out.token(word.get());
            out.token(underscore.get());
            out.token(equals.get());
            out.refs(refs);
            out.token_if(semi);
        }
        Stmt::Let {
            word,
            pat,
            annotation,
            equals,
            value,
            semi,
        } => {
            out.token(word.get());
            out.pat(pat.get());
            out.annotation(annotation);
            out.token(equals.get());
            add_expr(out, value.get());
            out.token_if(semi);
        }
        Stmt::Macro { call, semi } => {
            out.macro_call(call);
            out.token_if(semi);
        }
        Stmt::Expr { value, semi } => {
            add_expr(out, value.get());
            out.token_if(semi);
        }
        Stmt::BlockLike { value, semi } => {
            add_expr(out, value.get());
            out.token_if(semi);
        }
        Stmt::Group { inner, semi, .. } => {
            add_stmt(out, inner.get());
            out.token_if(semi);
        }
    }
}

#[cycle(exprs)]
pub(crate) fn add_stmts(out: &mut Writer, list: &[Stmt])
    ensures { Adds out.old (each (stmt_parts one inside opened) list.now) out.new }
{
    for part in list {
        add_stmt(out, part);
    }
}

#[cycle(exprs)]
pub(crate) fn add_body(out: &mut Writer, part: &Body)
    ensures { Adds out.old (body_parts one inside opened part.now) out.new }
{
    add_stmts(out, part.stmts.as_slice());
    add_expr_if(out, &part.tail);
}
