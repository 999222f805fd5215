//! Patterns: the parts that they ask of, and the slots that they bind.

ghost use Rattle.std.specs.Prelude.{◌≡◌, ◌↔◌, IsTrue, IsSome};
ghost use Rattle.std.specs.Option.{option_copied};
ghost use Rattle.em_core.specs.declared.ty.Ty.{out-Ty};
ghost use Rattle.em_core.specs.Arithmetic as arithmetic;
ghost use Rattle.em_core.specs.Values as values;
ghost use Rattle.em_core.specs.Naming as naming;
ghost use Rattle.em_core.specs.Naming.{IsReference, BindingFits, TestFits, PartFits, PatternFits, ArmFits};

use crate::copying::is_copy_type;
use crate::expr::Arm;
use crate::operator::Constant;
use crate::pattern::{Binding, Pattern, PatternPart, Test, VariantField};
use crate::program::Core;
use crate::same::same_type;
use crate::ty::Ty;
use crate::typed::fits::is_str;
use crate::typed::places::{field_in, variant_at};
use em_base::IntKind;

fn path_type<'a>(core: &'a Core, ty: &'a Ty, path: &[VariantField]) -> Option<&'a Ty>
    ensures { option_copied result ≡ naming.path_type core.now ty.now path.now }
{
    match path {
        [] => Some(ty),
        [step, rest @ ..] => {
            let below = field_in(core, ty, step.def, step.variant, step.field)?;
            path_type(core, below, rest)
        }
    }
}

/// The least number of a type, and the greatest.
fn bounds(kind: IntKind) -> (i128, i128)
    ensures least { result.0 ≡ arithmetic.least kind }
    ensures greatest { result.1 ≡ arithmetic.greatest kind }
{
    match kind {
        IntKind::I8 => (-0x80, 0x7F),
        IntKind::I16 => (-0x8000, 0x7FFF),
        IntKind::I32 => (-0x8000_0000, 0x7FFF_FFFF),
        IntKind::I64 | IntKind::Isize => (-0x8000_0000_0000_0000, 0x7FFF_FFFF_FFFF_FFFF),
        IntKind::U8 => (0, 0xFF),
        IntKind::U16 => (0, 0xFFFF),
        IntKind::U32 => (0, 0xFFFF_FFFF),
        IntKind::U64 | IntKind::Usize => (0, 0xFFFF_FFFF_FFFF_FFFF),
    }
}

/// Whether the type has the number.
pub fn holds(kind: IntKind, value: i128) -> bool
    ensures { result ≡ arithmetic.holds kind value }
{
    let (least, greatest) = bounds(kind);
    least <= value && value <= greatest
}

fn kind_number(kind: IntKind) -> u8
    ensures { result ≡ values.kind_number kind }
{
    match kind {
        IntKind::I8 => 0,
        IntKind::I16 => 1,
        IntKind::I32 => 2,
        IntKind::I64 => 3,
        IntKind::Isize => 4,
        IntKind::U8 => 5,
        IntKind::U16 => 6,
        IntKind::U32 => 7,
        IntKind::U64 => 8,
        IntKind::Usize => 9,
    }
}

fn same_kind(kind: IntKind, other: IntKind) -> bool
    ensures { result ≡ values.same_kind kind other }
{
    kind_number(kind) == kind_number(other)
}

fn literal_fits(constant: &Constant, ty: &Ty) -> bool
    ensures { result ≡ naming.literal_fits constant.now (out-Ty ty.now) }
{
    match constant {
        Constant::Int { kind, value } => match ty {
            Ty::Int(other) => same_kind(*kind, *other) && holds(*kind, *value),
            _ => false,
        },
        Constant::Bool(_) => matches!(ty, Ty::Bool),
        Constant::Char(_) => matches!(ty, Ty::Char),
        Constant::Text(_) => match ty {
            Ty::Ref { to, unique } => is_str(to.get()) && !*unique,
            _ => false,
        },
        Constant::Unit => false,
    }
}

#[tactic(auto, unfolding(crate::specs::Naming::IsReference))]
fn is_reference(ty: &Ty, to: &Ty, wanted: bool) -> bool
    ensures { IsTrue result ↔ IsReference (out-Ty ty.now) to.now wanted }
{
    match ty {
        Ty::Ref { to: found, unique } => same_type(found.get(), to) && *unique == wanted,
        _ => false,
    }
}

#[tactic(auto, unfolding(crate::specs::Naming::BindingFits))]
fn binding_fits(core: &Core, how: Binding, part: &Ty, slot: &Ty) -> bool
    ensures { IsTrue result ↔ BindingFits core.now how part.now slot.now }
{
    match how {
        Binding::Copy => same_type(part, slot) && is_copy_type(core, part),
        Binding::Move => same_type(part, slot),
        Binding::Shared => is_reference(slot, part, false),
        Binding::Unique => is_reference(slot, part, true),
    }
}

fn is_ordered(ty: &Ty) -> bool
    ensures { result ≡ naming.is_ordered (out-Ty ty.now) }
{
    matches!(ty, Ty::Int(_) | Ty::Char)
}

fn is_def(ty: &Ty, def: u32) -> bool
    ensures { result ≡ naming.is_def def (out-Ty ty.now) }
{
    match ty {
        Ty::Def(found) => def == *found,
        _ => false,
    }
}

fn has_variant(core: &Core, def: u32, variant: u32) -> bool
    ensures { IsTrue result ↔ IsSome (naming.variant_at core.now def variant) }
{
    variant_at(core, def, variant).is_some()
}

#[tactic(auto, unfolding(crate::specs::Naming::TestFits))]
fn test_fits(core: &Core, slots: &[Ty], part: &Ty, test: &Test) -> bool
    ensures { IsTrue result ↔ TestFits core.now slots.now part.now test.now }
{
    match test {
        Test::Variant { def, variant } => is_def(part, *def) && has_variant(core, *def, *variant),
        Test::Equal(constant) => literal_fits(constant, part),
        Test::Within { low, high } => is_ordered(part)
            && literal_fits(low, part)
            && literal_fits(high, part),
        Test::Bind { slot, how } => match slots.get(*slot as usize) {
            Some(bound) => binding_fits(core, *how, part, bound),
            None => false,
        },
    }
}

#[tactic(auto, unfolding(crate::specs::Naming::PartFits))]
fn part_fits(core: &Core, slots: &[Ty], ty: &Ty, part: &PatternPart) -> bool
    ensures { IsTrue result ↔ PartFits core.now slots.now ty.now part.now }
{
    match path_type(core, ty, part.path.as_slice()) {
        Some(found) => test_fits(core, slots, found, &part.test),
        None => false,
    }
}

#[tactic(auto, unfolding(crate::specs::Naming::PatternFits))]
fn pattern_fits(core: &Core, slots: &[Ty], ty: &Ty, pattern: &Pattern) -> bool
    ensures { IsTrue result ↔ PatternFits core.now slots.now ty.now pattern.now }
{
    pattern
        .parts
        .as_slice()
        .iter()
        .all(|part| part_fits(core, slots, ty, part))
}

/// Whether the patterns of an arm fit a value of the type.
#[tactic(auto, unfolding(crate::specs::Naming::ArmFits))]
pub fn arm_fits(core: &Core, slots: &[Ty], ty: &Ty, arm: &Arm) -> bool
    ensures { IsTrue result ↔ ArmFits core.now slots.now ty.now arm.now }
{
    arm.patterns
        .as_slice()
        .iter()
        .all(|pattern| pattern_fits(core, slots, ty, pattern))
}
