//! Where a value of one type may stand for another, and what constants, operators, formats and iterators ask of types.

ghost use Rattle.std.specs.Prelude.{◌≡◌, ◌↔◌, IsTrue, All, length};
ghost use Rattle.std.specs.Option.{option_copied};
ghost use Rattle.em_core.specs.declared.ty.Ty.{out-Ty};
ghost use Rattle.em_core.specs.Arithmetic;
ghost use Rattle.em_core.specs.Fitting as fitting;
ghost use Rattle.em_core.specs.Fitting.{Reborrows, Fits, AllFit, EachFits, EachIs, BranchesFit};

use crate::expr::Piece;
use crate::operator::{BinaryOp, Constant, UnaryOp};
use crate::same::same_type;
use crate::ty::{ClosureKind, Ty};
use em_base::IntKind;

pub fn is_never(ty: &Ty) -> bool
    ensures { result ≡ fitting.is_never (out-Ty ty.now) }
{
    matches!(ty, Ty::Never)
}

pub fn is_bool(ty: &Ty) -> bool
    ensures { result ≡ fitting.is_bool (out-Ty ty.now) }
{
    matches!(ty, Ty::Bool)
}

pub fn is_str(ty: &Ty) -> bool
    ensures { result ≡ fitting.is_str (out-Ty ty.now) }
{
    matches!(ty, Ty::Str)
}

pub fn is_sized(ty: &Ty) -> bool
    ensures { result ≡ fitting.is_sized (out-Ty ty.now) }
{
    !matches!(ty, Ty::Str | Ty::Slice(_) | Ty::Dyn(_) | Ty::DynFn { .. })
}

#[tactic(auto, unfolding(crate::specs::Fitting::Reborrows))]
fn reborrows(ty: &Ty, wanted: &Ty) -> bool
    ensures { IsTrue result ↔ Reborrows (out-Ty ty.now) (out-Ty wanted.now) }
{
    match ty {
        Ty::Ref { to, unique: true } => match wanted {
            Ty::Ref {
                to: other,
                unique: false,
            } => same_type(to.get(), other.get()),
            _ => false,
        },
        _ => false,
    }
}

#[tactic(auto, unfolding(crate::specs::Fitting::Fits))]
pub fn fits(ty: &Ty, wanted: &Ty) -> bool
    ensures { IsTrue result ↔ Fits ty.now wanted.now }
{
    same_type(ty, wanted) || is_never(ty) || reborrows(ty, wanted)
}

#[tactic(auto, unfolding(crate::specs::Fitting::AllFit))]
pub fn all_fit(types: &[Ty], wanted: &[Ty]) -> bool
    ensures { IsTrue result ↔ AllFit types.now wanted.now }
{
    if types.len() != wanted.len() {
        return false;
    }
    for i in 0..types.len() {
        if !fits(&types[i], &wanted[i]) {
            return false;
        }
    }
    true
}

#[tactic(auto, unfolding(crate::specs::Fitting::EachFits))]
pub fn each_fits(types: &[Ty], wanted: &Ty) -> bool
    ensures { IsTrue result ↔ EachFits types.now wanted.now }
{
    types.iter().all(|ty| fits(ty, wanted))
}

#[tactic(auto, unfolding(crate::specs::Fitting::EachIs))]
pub fn each_is(types: &[Ty], wanted: &Ty) -> bool
    ensures { IsTrue result ↔ EachIs types.now wanted.now }
{
    types.iter().all(|ty| same_type(ty, wanted))
}

#[tactic(auto, unfolding(crate::specs::Fitting::BranchesFit))]
pub fn branches_fit(types: &[Ty], wanted: &Ty) -> bool
    ensures { IsTrue result ↔ BranchesFit types.now wanted.now }
{
    types.iter().all(|ty| is_never(ty) || same_type(ty, wanted))
}

pub fn unary_takes(op: UnaryOp, ty: &Ty) -> bool
    ensures { result ≡ fitting.unary_takes op (out-Ty ty.now) }
{
    match op {
        UnaryOp::Negate => is_signed_int(ty),
        UnaryOp::Not => matches!(ty, Ty::Int(_) | Ty::Bool),
    }
}

fn is_signed_int(ty: &Ty) -> bool
    ensures { result ≡ fitting.is_signed_int (out-Ty ty.now) }
{
    match ty {
        Ty::Int(kind) => is_signed(*kind),
        _ => false,
    }
}

fn is_signed(kind: IntKind) -> bool
    ensures { result ≡ Arithmetic.is_signed kind }
{
    matches!(
        kind,
        IntKind::I8 | IntKind::I16 | IntKind::I32 | IntKind::I64 | IntKind::Isize
    )
}

fn is_bitwise(op: BinaryOp) -> bool
    ensures { result ≡ fitting.is_bitwise op }
{
    matches!(op, BinaryOp::And | BinaryOp::Or | BinaryOp::Xor)
}

pub fn binary_takes(op: BinaryOp, ty: &Ty) -> bool
    ensures { result ≡ fitting.binary_takes op (out-Ty ty.now) }
{
    match ty {
        Ty::Int(_) => true,
        Ty::Bool => is_bitwise(op),
        _ => false,
    }
}

pub fn is_compared(ty: &Ty) -> bool
    ensures { result ≡ fitting.is_compared (out-Ty ty.now) }
{
    matches!(ty, Ty::Int(_) | Ty::Bool | Ty::Char)
}

pub fn is_shown(ty: &Ty) -> bool
    ensures { result ≡ fitting.is_shown (out-Ty ty.now) }
{
    match ty {
        Ty::Int(_) | Ty::Bool | Ty::Char => true,
        Ty::Ref { to, .. } => is_str(to.get()),
        _ => false,
    }
}

pub fn is_at_least(kind: ClosureKind, wanted: ClosureKind) -> bool
    ensures { result ≡ fitting.is_at_least kind wanted }
{
    match kind {
        ClosureKind::Fn => true,
        ClosureKind::FnMut => !matches!(wanted, ClosureKind::Fn),
        ClosureKind::FnOnce => matches!(wanted, ClosureKind::FnOnce),
    }
}
