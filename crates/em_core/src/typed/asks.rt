//! What the forms of expressions ask of their operands' types.

ghost use Rattle.std.specs.Prelude.{◌≡◌, ◌↔◌, ◌<◌, IsTrue, IsSomeAnd, All, length, slice_get, Some, option_and_then};
ghost use Rattle.em_core.specs.declared.ty.Ty.{out-Ty};
ghost use Rattle.em_core.specs.declared.ty.ClosureKind.TheVariants as kinds;
ghost use Rattle.em_core.specs.Facts as facts;
ghost use Rattle.em_core.specs.Fitting as fitting;
ghost use Rattle.em_core.specs.Fitting.{AllFit, EachFits, EachIs};
ghost use Rattle.em_core.specs.Naming as naming;
ghost use Rattle.em_core.specs.Naming.{ArmFits, MayCall, ObjectFits, VariableStands};
ghost use Rattle.em_core.specs.Rules as rules;
ghost use Rattle.em_core.specs.Rules.{ComparesFit, FormatFits, OneType};
ghost use Rattle.em_core.specs.Types.{IsCopy};

use crate::copying::is_copy_type;
use crate::expr::{Arm, Piece};
use crate::function::Variable;
use crate::operator::Constant;
use crate::place::PlaceExpr;
use crate::program::Core;
use crate::same::same_type;
use crate::ty::{ClosureKind, Ty};
use crate::typed::calls::{may_call, object_fits, unboxed};
use crate::typed::fits::{all_fit, each_fits, each_is, is_bool, is_compared, is_shown};
use crate::typed::patterns::{arm_fits, holds};
use crate::typed::places::{closure_of, place_type, variable_stands, variant_at};

pub fn constant_fits(constant: &Constant) -> bool
    ensures { result ≡ fitting.constant_fits constant.now }
{
    match constant {
        Constant::Int { kind, value } => holds(*kind, *value),
        _ => true,
    }
}

pub fn slot_fits(slots: &[Ty], slot: u32, types: &[Ty]) -> bool
    ensures { IsTrue result ↔ IsSomeAnd (slice_get slots.now slot) (λ u. EachFits types.now u) }
{
    match slots.get(slot as usize) {
        Some(wanted) => each_fits(types, wanted),
        None => false,
    }
}

pub fn slot_is(slots: &[Ty], slot: u32, types: &[Ty]) -> bool
    ensures { IsTrue result ↔ IsSomeAnd (slice_get slots.now slot) (λ u. EachIs types.now u) }
{
    match slots.get(slot as usize) {
        Some(wanted) => each_is(types, wanted),
        None => false,
    }
}

pub fn place_fits(
    core: &Core,
    slots: &[Ty],
    roots: &[Variable],
    place: &PlaceExpr,
    types: &[Ty],
) -> bool
    ensures { IsTrue result ↔ IsSomeAnd (naming.place_type core.now slots.now roots.now place.now) (λ u. EachFits types.now u) }
{
    match place_type(core, slots, roots, place) {
        Some(wanted) => each_fits(types, wanted),
        None => false,
    }
}

#[tactic(auto, unfolding(crate::specs::Rules::ComparesFit))]
pub fn compares_fit(types: &[Ty]) -> bool
    ensures { IsTrue result ↔ ComparesFit types.now }
{
    match types {
        [first, ..] => each_is(types, first) && is_compared(first),
        [] => false,
    }
}

#[tactic(auto, unfolding(crate::specs::Rules::OneType))]
pub fn one_type(types: &[Ty]) -> bool
    ensures { IsTrue result ↔ OneType types.now }
{
    match types {
        [first, ..] => each_is(types, first),
        [] => false,
    }
}

pub fn fields_fit(core: &Core, def: u32, variant: u32, types: &[Ty]) -> bool
    ensures { IsTrue result ↔ IsSomeAnd (naming.variant_at core.now def variant) (λ v. AllFit types.now v.fields) }
{
    match variant_at(core, def, variant) {
        Some(found) => all_fit(types, found.fields.as_slice()),
        None => false,
    }
}

pub fn each_copy(core: &Core, types: &[Ty]) -> bool
    ensures { IsTrue result ↔ All (λ t. IsCopy core.now t) types.now }
{
    types.iter().all(|ty| is_copy_type(core, ty))
}

fn variables_stand(slots: &[Ty], roots: &[Variable], variables: &[Variable]) -> bool
    ensures { IsTrue result ↔ All (λ x. VariableStands slots.now roots.now x) variables.now }
{
    variables
        .iter()
        .all(|variable| variable_stands(slots, roots, variable))
}

pub fn captures_stand(core: &Core, slots: &[Ty], roots: &[Variable], id: u32) -> bool
    ensures { IsTrue result ↔ IsSomeAnd (facts.closure_of core.now id) (λ c. All (λ x. VariableStands slots.now roots.now x) c.variables) }
{
    match closure_of(core, id) {
        Some(entry) => variables_stand(slots, roots, entry.variables.as_slice()),
        None => false,
    }
}

pub fn call_fits(core: &Core, function: u32, types: &[Ty]) -> bool
    ensures { IsTrue result ↔ IsSomeAnd (slice_get core.now.functions function) (λ g. AllFit types.now g.parameters) }
{
    match core.functions.get(function as usize) {
        Some(found) => all_fit(types, found.parameters.as_slice()),
        None => false,
    }
}

pub fn call_dyn_fits(core: &Core, method: u32, types: &[Ty]) -> bool
    ensures { IsTrue result ↔ IsSomeAnd (slice_get core.now.methods.methods method) (λ x. ObjectFits x types.now) }
{
    match core.methods.methods.get(method as usize) {
        Some(found) => object_fits(found, types),
        None => false,
    }
}

pub fn call_by_fits(
    core: &Core,
    slots: &[Ty],
    roots: &[Variable],
    place: &PlaceExpr,
    types: &[Ty],
) -> bool
    ensures { IsTrue result ↔ IsSomeAnd (naming.place_type core.now slots.now roots.now place.now) (λ t. MayCall core.now t kinds.FnMut types.now) }
{
    match place_type(core, slots, roots, place) {
        Some(ty) => may_call(core, ty, ClosureKind::FnMut, types),
        None => false,
    }
}

pub fn rest_types(types: &[Ty]) -> &[Ty]
    ensures { result.now ≡ rules.rest_types types.now }
{
    match types {
        [_, rest @ ..] => rest,
        [] => types,
    }
}

pub fn call_once_fits(core: &Core, types: &[Ty]) -> bool
    ensures { IsTrue result ↔ IsSomeAnd (rules.first_type types.now) (λ t. MayCall core.now (naming.unboxed t (out-Ty t)) kinds.FnOnce (rules.rest_types types.now)) }
{
    match types {
        [first, ..] => may_call(core, unboxed(first), ClosureKind::FnOnce, rest_types(types)),
        [] => false,
    }
}

pub fn begins_with_bool(types: &[Ty]) -> bool
    ensures { result ≡ rules.begins_with_bool types.now }
{
    match types {
        [first, ..] => is_bool(first),
        [] => false,
    }
}

fn arms_fit(core: &Core, slots: &[Ty], ty: &Ty, arms: &[Arm]) -> bool
    ensures { IsTrue result ↔ All (λ x. ArmFits core.now slots.now ty.now x) arms.now }
{
    arms.iter().all(|arm| arm_fits(core, slots, ty, arm))
}

pub fn match_fits(
    core: &Core,
    slots: &[Ty],
    roots: &[Variable],
    place: &PlaceExpr,
    arms: &[Arm],
) -> bool
    ensures { IsTrue result ↔ IsSomeAnd (naming.place_type core.now slots.now roots.now place.now) (λ t. All (λ x. ArmFits core.now slots.now t x) arms.now) }
{
    match place_type(core, slots, roots, place) {
        Some(ty) => arms_fit(core, slots, ty, arms),
        None => false,
    }
}

pub fn slots_exist(slots: &[Ty], named: &[u32]) -> bool
    ensures { IsTrue result ↔ All (λ s. s < length slots.now) named.now }
{
    named.iter().all(|slot| (*slot as usize) < slots.len())
}

fn is_argument(piece: &Piece) -> bool
    ensures { result ≡ fitting.is_argument piece.now }
{
    matches!(piece, Piece::Argument)
}

fn argument_count(pieces: &[Piece]) -> usize
    ensures { result ≡ fitting.argument_count pieces.now }
{
    pieces.iter().filter(|piece| is_argument(piece)).count()
}

fn each_shown(types: &[Ty]) -> bool
    ensures { IsTrue result ↔ All (λ t. IsTrue (fitting.is_shown (out-Ty t))) types.now }
{
    types.iter().all(|ty| is_shown(ty))
}

#[tactic(auto, unfolding(crate::specs::Rules::FormatFits))]
pub fn format_fits(pieces: &[Piece], types: &[Ty]) -> bool
    ensures { IsTrue result ↔ FormatFits pieces.now types.now }
{
    argument_count(pieces) == types.len() && each_shown(types)
}

fn item_is(ty: &Ty, slot: &Ty) -> bool
    ensures { IsTrue result ↔ (fitting.item_type (out-Ty ty.now) ≡ Some slot.now) }
{
    match ty {
        Ty::ArrayIter(item) => same_type(item.get(), slot),
        Ty::RefIter(item) => same_type(item.get(), slot),
        Ty::Range(kind) => same_type(&Ty::Int(*kind), slot),
        _ => false,
    }
}

pub fn next_fits(
    core: &Core,
    slots: &[Ty],
    roots: &[Variable],
    place: &PlaceExpr,
    slot: u32,
) -> bool
    ensures { IsTrue result ↔ IsSomeAnd (option_and_then (λ t. fitting.item_type (out-Ty t)) (naming.place_type core.now slots.now roots.now place.now)) (λ i. slice_get slots.now slot ≡ Some i) }
{
    match place_type(core, slots, roots, place) {
        Some(ty) => match slots.get(slot as usize) {
            Some(found) => item_is(ty, found),
            None => false,
        },
        None => false,
    }
}
