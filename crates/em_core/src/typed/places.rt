//! What places, captures and closures name in a Core.

ghost use Rattle.std.specs.Prelude.{◌≡◌, ◌↔◌, IsTrue, slice_get};
ghost use Rattle.std.specs.Option.{option_copied};
ghost use Rattle.em_core.specs.declared.ty.Ty.{out-Ty};
ghost use Rattle.em_core.specs.Facts as facts;
ghost use Rattle.em_core.specs.Fitting as fitting;
ghost use Rattle.em_core.specs.Naming as naming;
ghost use Rattle.em_core.specs.Naming.{CaptureFits, PartsApart, VariableStands};

use crate::copying::is_copy_type;
use crate::definition::Variant;
use crate::function::{Capture, ClosureEntry, FieldStep, Variable};
use crate::place::{Base, PlaceExpr, PlaceStep};
use crate::program::Core;
use crate::same::same_type;
use crate::ty::Ty;
use em_base::IntKind;

/// The closure of a number.
pub fn closure_of(core: &Core, id: u32) -> Option<&ClosureEntry>
    ensures { option_copied result ≡ facts.closure_of core.now id }
{
    core.functions
        .as_slice()
        .iter()
        .flat_map(|function| function.closures.as_slice())
        .find(|entry| entry.id == id)
}

pub fn variant_at(core: &Core, def: u32, variant: u32) -> Option<&Variant>
    ensures { option_copied result ≡ naming.variant_at core.now def variant }
{
    core.types.get(def as usize)?.variants.get(variant as usize)
}

/// A field of a type that has it.
pub fn field_in<'a>(core: &'a Core, ty: &Ty, def: u32, variant: u32, field: u32) -> Option<&'a Ty>
    ensures { option_copied result ≡ naming.field_in core.now (out-Ty ty.now) def variant field }
{
    match ty {
        Ty::Def(found) => {
            if *found == def {
                variant_at(core, def, variant)?.fields.get(field as usize)
            } else {
                None
            }
        }
        _ => None,
    }
}

/// What a reference or a box leads to.
pub fn target_type(ty: &Ty) -> Option<&Ty>
    ensures { option_copied result ≡ naming.target_type (out-Ty ty.now) }
{
    match ty {
        Ty::Ref { to, .. } => Some(to.get()),
        Ty::Boxed(content) => Some(content.get()),
        _ => None,
    }
}

pub fn element_type(ty: &Ty) -> Option<&Ty>
    ensures { option_copied result ≡ fitting.element_type (out-Ty ty.now) }
{
    match ty {
        Ty::Array(element, _) => Some(element.get()),
        Ty::Slice(element) => Some(element.get()),
        _ => None,
    }
}

fn is_usize_kind(kind: IntKind) -> bool
    ensures { result ≡ naming.is_usize_kind kind }
{
    matches!(kind, IntKind::Usize)
}

fn is_usize(ty: &Ty) -> bool
    ensures { result ≡ naming.is_usize (out-Ty ty.now) }
{
    match ty {
        Ty::Int(kind) => is_usize_kind(*kind),
        _ => false,
    }
}

fn is_index(slots: &[Ty], slot: u32) -> bool
    ensures { result ≡ naming.is_index_type (slice_get slots.now slot) }
{
    match slots.get(slot as usize) {
        Some(ty) => is_usize(ty),
        None => false,
    }
}

fn step_type<'a>(core: &'a Core, slots: &'a [Ty], ty: &'a Ty, step: PlaceStep) -> Option<&'a Ty>
    ensures { option_copied result ≡ naming.step_type core.now slots.now ty.now step }
{
    match step {
        PlaceStep::Field {
            def,
            variant,
            field,
        } => field_in(core, ty, def, variant, field),
        PlaceStep::Deref => target_type(ty),
        PlaceStep::Index(slot) => {
            if is_index(slots, slot) {
                element_type(ty)
            } else {
                None
            }
        }
    }
}

fn steps_type<'a>(
    core: &'a Core,
    slots: &'a [Ty],
    ty: &'a Ty,
    steps: &[PlaceStep],
) -> Option<&'a Ty>
    ensures { option_copied result ≡ naming.steps_type core.now slots.now ty.now steps.now }
{
    match steps {
        [] => Some(ty),
        [step, rest @ ..] => {
            let below = step_type(core, slots, ty, *step)?;
            steps_type(core, slots, below, rest)
        }
    }
}

fn base_type<'a>(slots: &'a [Ty], roots: &'a [Variable], base: Base) -> Option<&'a Ty>
    ensures { option_copied result ≡ naming.base_type slots.now roots.now base }
{
    match base {
        Base::Slot(slot) => slots.get(slot as usize),
        Base::Root(root) => match roots.get(root as usize) {
            Some(variable) => Some(&variable.ty),
            None => None,
        },
    }
}

/// The type of a place in a body with these slots and captured variables.
pub fn place_type<'a>(
    core: &'a Core,
    slots: &'a [Ty],
    roots: &'a [Variable],
    place: &PlaceExpr,
) -> Option<&'a Ty>
    ensures { option_copied result ≡ naming.place_type core.now slots.now roots.now place.now }
{
    let ty = base_type(slots, roots, place.base)?;
    steps_type(core, slots, ty, place.steps.as_slice())
}

/// The type of a captured part of a variable of this type.
fn part_type<'a>(core: &'a Core, ty: &'a Ty, path: &[FieldStep]) -> Option<&'a Ty>
    ensures { option_copied result ≡ naming.part_type core.now ty.now path.now }
{
    match path {
        [] => Some(ty),
        [step, rest @ ..] => {
            let below = field_in(core, ty, step.def, 0, step.field)?;
            part_type(core, below, rest)
        }
    }
}

#[tactic(auto, unfolding(crate::specs::Naming::CaptureFits))]
pub fn capture_fits(core: &Core, ty: &Ty, capture: &Capture) -> bool
    ensures { IsTrue result ↔ CaptureFits core.now ty.now capture.now }
{
    match part_type(core, ty, capture.path.as_slice()) {
        Some(part) => capture.copy == is_copy_type(core, part),
        None => false,
    }
}

fn begins_with(path: &[FieldStep], front: &[FieldStep]) -> bool
    ensures { result ≡ naming.begins_with path.now front.now }
{
    match front {
        [] => true,
        [step, front @ ..] => match path {
            [] => false,
            [first, path @ ..] => first.def == step.def
                && first.field == step.field
                && begins_with(path, front),
        },
    }
}

pub fn are_apart(path: &[FieldStep], other: &[FieldStep]) -> bool
    ensures { result ≡ naming.are_apart path.now other.now }
{
    !begins_with(path, other) && !begins_with(other, path)
}

#[tactic(auto, unfolding(crate::specs::Naming::VariableStands))]
pub fn variable_stands(slots: &[Ty], roots: &[Variable], variable: &Variable) -> bool
    ensures { IsTrue result ↔ VariableStands slots.now roots.now variable.now }
{
    match base_type(slots, roots, variable.base) {
        Some(ty) => same_type(ty, &variable.ty),
        None => false,
    }
}
