//! How tightly an expression binds (Reference, "Expression precedence").

ghost use Rattle.std.specs.Prelude.{◌≡◌};
ghost use Rattle.em_tree.specs.ExprShape as shape;
ghost use Rattle.em_read_exprs.specs.Strength.{logic_strength, comparison_strength, bit_strength, sum_strength};

use em_base::Token;
use em_tree::{Expr, spelling};

fn logic_strength(text: &str) -> usize
    ensures { result ≡ logic_strength text.now }
{
    match text {
        "&&" => 5,
        "||" => 4,
        _ => 0,
    }
}

fn comparison_strength(text: &str) -> usize
    ensures { result ≡ comparison_strength text.now }
{
    match text {
        "==" | "!=" | "<" | ">" | "<=" | ">=" => 6,
        _ => logic_strength(text),
    }
}

fn bit_strength(text: &str) -> usize
    ensures { result ≡ bit_strength text.now }
{
    match text {
        "<<" | ">>" => 10,
        "&" => 9,
        "^" => 8,
        "|" => 7,
        _ => comparison_strength(text),
    }
}

fn sum_strength(text: &str) -> usize
    ensures { result ≡ sum_strength text.now }
{
    match text {
        "*" | "/" | "%" => 12,
        "+" | "-" => 11,
        _ => bit_strength(text),
    }
}

/// How tightly a binary operator binds, and 0 for another token.
fn operator_strength(token: &Token) -> usize
    ensures { result ≡ shape.operator_strength token.now }
{
    match spelling(token) {
        Some(text) => sum_strength(text),
        None => 0,
    }
}

/// How tightly an expression binds.
pub fn strength(tree: &Expr) -> usize
    ensures { result ≡ shape.strength tree.now }
{
    match tree {
        Expr::MethodCall { .. }
        | Expr::Call { .. }
        | Expr::Field { .. }
        | Expr::Place { .. }
        | Expr::Index { .. } => 14,
        Expr::Unary { .. } | Expr::Ref { .. } | Expr::RefRef { .. } => 13,
        Expr::Binary { operator, .. } => operator_strength(operator.get()),
        Expr::Assign { .. } => 3,
        Expr::Closure { .. } | Expr::ClosureTo { .. } | Expr::Return { .. } => 2,
        _ => 15,
    }
}
