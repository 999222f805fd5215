//! How an expression ends and which form it has (Reference, "Expression precedence" and "Expression statements").

ghost use Rattle.std.specs.Prelude.{◌≡◌};
ghost use Rattle.em_tree.specs.declared.expr.Expr.{out-Expr};
ghost use Rattle.em_tree.specs.ExprShape as shape;
ghost use Rattle.em_grammar.specs.ExprSets as sets;

use em_grammar::{Written, is_sign};
use em_tree::{Expr, MacroCall};

/// Whether it ends in a closure or a `return`, which takes all that follows.
#[tactic(auto, using(crate::proofs::Ends::open_at, crate::proofs::Ends::open_unary, crate::proofs::Ends::open_ref, crate::proofs::Ends::open_ref_ref, crate::proofs::Ends::open_binary, crate::proofs::Ends::open_assign))]
pub fn ends_open(tree: &Expr) -> bool
    ensures { result ≡ shape.ends_open tree.now }
{
    match tree {
        Expr::Closure { .. } | Expr::ClosureTo { .. } | Expr::Return { .. } => true,
        Expr::Unary { operand, .. } => ends_open(operand.get()),
        Expr::Ref { operand, .. } => ends_open(operand.get()),
        Expr::RefRef { operand, .. } => ends_open(operand.get()),
        Expr::Binary { right, .. } => ends_open(right.get()),
        Expr::Assign { right, .. } => ends_open(right.get()),
        _ => false,
    }
}

/// Whether it ends in a `return` without a value.
#[tactic(auto, using(crate::proofs::Ends::bare_at, crate::proofs::Ends::bare_value))]
pub fn ends_bare(tree: &Expr) -> bool
    ensures { result ≡ shape.ends_bare tree.now }
{
    match tree {
        Expr::Return { value: None, .. } => true,
        Expr::Return {
            value: Some(value),
            ..
        } => ends_bare(value.get()),
        Expr::Closure { body, .. } => ends_bare(body.get()),
        Expr::Unary { operand, .. } => ends_bare(operand.get()),
        Expr::Ref { operand, .. } => ends_bare(operand.get()),
        Expr::RefRef { operand, .. } => ends_bare(operand.get()),
        Expr::Binary { right, .. } => ends_bare(right.get()),
        Expr::Assign { right, .. } => ends_bare(right.get()),
        _ => false,
    }
}

/// Whether it is itself a block, an `if`, a `match` or a loop.
pub fn is_block(tree: &Expr) -> bool
    ensures { result ≡ sets.is_block (out-Expr tree.now) }
{
    matches!(
        tree,
        Expr::Block(_)
            | Expr::If { .. }
            | Expr::Match { .. }
            | Expr::While { .. }
            | Expr::Loop { .. }
            | Expr::For { .. }
    )
}

pub fn is_field(tree: &Expr) -> bool
    ensures { result ≡ sets.is_field (out-Expr tree.now) }
{
    matches!(tree, Expr::Field { .. })
}

pub fn has_braces(call: &MacroCall) -> bool
    ensures { result ≡ sets.has_braces call.now }
{
    is_sign(Written::OpenBrace, call.text.open.get())
}

/// Whether it is itself a macro call with braces.
pub fn is_braced(tree: &Expr) -> bool
    ensures { result ≡ sets.is_braced (out-Expr tree.now) }
{
    match tree {
        Expr::Macro(call) => has_braces(call),
        _ => false,
    }
}
