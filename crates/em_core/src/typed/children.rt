//! The operands of an expression, and the types that a type is made of, by number.

ghost use Rattle.std.specs.Prelude.{◌≡◌, ◌⊎◌, ◌<◌, ◌+◌, [], ◌∷◌, IfSome, OnSome, length, slice_get, slice_index_or};
ghost use Rattle.std.specs.Option.{option_copied};
ghost use Rattle.em_core.specs.declared.ty.Ty.{out-Ty, size-Ty};
ghost use Rattle.em_core.specs.declared.expr.Arm.{out-Arm};
ghost use Rattle.em_core.specs.declared.expr.Expr.{out-Expr, size-Expr};
ghost use Rattle.em_core.specs.Nodes as nodes;

use crate::expr::{Arm, Expr};
use crate::ty::Ty;
use sqlite_items::Boxed;

/// An operand of an expression.
pub fn child_at(e: &Expr, at: usize) -> Option<&Expr>
    ensures child { option_copied result ≡ slice_get (nodes.children (out-Expr e.now)) at }
    ensures counts { OnSome result (at + 1 < 18446744073709551615) }
    ensures within { OnSome result (at < length (nodes.children (out-Expr e.now))) }
    ensures smaller { IfSome result (λ c. size-Expr c.now < size-Expr e.now) }
{
    match e {
        Expr::Init { value, .. } | Expr::Assign { value, .. } | Expr::DropValue { value, .. } => {
            only(value, at)
        }
        Expr::BoxNew { value, .. } | Expr::PanicValue { value, .. } | Expr::Unsize { value, .. } =>
            { only(value, at) }
        Expr::Unary(_, value) | Expr::Loop(value) | Expr::Return(value) => only(value, at),
        Expr::ToIter(value) | Expr::ToRefIter(value) => only(value, at),
        Expr::Repeat { element, .. } => only(element, at),
        Expr::Scope { body, .. } => only(body, at),
        Expr::Binary(_, a, b) => pair(a, b, at),
        Expr::Compare(_, a, b) => pair(a, b, at),
        Expr::RangeOf { low, high, .. } => pair(low, high, at),
        Expr::Build { fields, .. } => item(fields.as_slice(), at),
        Expr::ArrayOf { elements, .. } => item(elements.as_slice(), at),
        Expr::Call { arguments, .. } => item(arguments.as_slice(), at),
        Expr::CallDyn { arguments, .. } => item(arguments.as_slice(), at),
        Expr::CallBy { arguments, .. } => item(arguments.as_slice(), at),
        Expr::Print { arguments, .. } => item(arguments.as_slice(), at),
        Expr::Panic { arguments, .. } => item(arguments.as_slice(), at),
        Expr::Seq(parts) => item(parts.as_slice(), at),
        Expr::CallOnce { closure, arguments } => match at {
            0 => Some(closure.get()),
            _ => item(arguments.as_slice(), at - 1),
        },
        Expr::If {
            condition,
            then,
            otherwise,
        } => match at {
            0 => Some(condition.get()),
            _ => pair(then, otherwise, at - 1),
        },
        Expr::Match { arms, .. } => {
            let arms = arms.as_slice();
            if at < arms.len() {
                Some(&arms[at].body)
            } else {
                None
            }
        }
        _ => None,
    }
}

fn pair<'a>(first: &'a Boxed<Expr>, second: &'a Boxed<Expr>, at: usize) -> Option<&'a Expr>
    ensures within { OnSome result (at < 2) }
    ensures child { option_copied result ≡ slice_get (first.now ∷ second.now ∷ []) at }
    ensures one { IfSome result (λ c. (c.now ≡ first.now) ⊎ (c.now ≡ second.now)) }
{
    match at {
        0 => Some(first.get()),
        1 => Some(second.get()),
        _ => None,
    }
}

fn only(value: &Boxed<Expr>, at: usize) -> Option<&Expr>
    ensures within { OnSome result (at < 1) }
    ensures child { option_copied result ≡ slice_get (value.now ∷ []) at }
{
    if at == 0 { Some(value.get()) } else { None }
}

fn item(items: &[Expr], at: usize) -> Option<&Expr>
    ensures child { option_copied result ≡ slice_get items.now at }
    ensures counts { OnSome result (at + 2 < 18446744073709551615) }
    ensures within { OnSome result (at < length items.now) }
    ensures stands { IfSome result (λ c. c.now ≡ slice_index_or items.now at c.now) }
{
    if at < items.len() {
        Some(&items[at])
    } else {
        None
    }
}

/// A type that a type is made of.
pub fn type_child(ty: &Ty, at: usize) -> Option<&Ty>
    ensures child { option_copied result ≡ slice_get (nodes.type_children (out-Ty ty.now)) at }
    ensures counts { OnSome result (at + 1 < 18446744073709551615) }
    ensures within { OnSome result (at < length (nodes.type_children (out-Ty ty.now))) }
    ensures smaller { IfSome result (λ c. size-Ty c.now < size-Ty ty.now) }
{
    match ty {
        Ty::Array(element, _) => only_type(element, at),
        Ty::Slice(element) => only_type(element, at),
        Ty::Ref { to, .. } => only_type(to, at),
        Ty::Boxed(content) => only_type(content, at),
        Ty::DynFn {
            arguments,
            result,
            ..
        } => match at {
            0 => Some(result.get()),
            _ => type_item(arguments.as_slice(), at - 1),
        },
        Ty::ArrayIter(item) => only_type(item, at),
        Ty::RefIter(item) => only_type(item, at),
        _ => None,
    }
}

fn only_type(ty: &Boxed<Ty>, at: usize) -> Option<&Ty>
    ensures within { OnSome result (at < 1) }
    ensures child { option_copied result ≡ slice_get (ty.now ∷ []) at }
{
    if at == 0 { Some(ty.get()) } else { None }
}

fn type_item(items: &[Ty], at: usize) -> Option<&Ty>
    ensures child { option_copied result ≡ slice_get items.now at }
    ensures counts { OnSome result (at + 2 < 18446744073709551615) }
    ensures within { OnSome result (at < length items.now) }
    ensures stands { IfSome result (λ c. c.now ≡ slice_index_or items.now at c.now) }
{
    if at < items.len() {
        Some(&items[at])
    } else {
        None
    }
}
