//! Which types have a part that may have a Drop impl, or one that is a reference (Reference, "Destructors").

ghost use Rattle.std.specs.Prelude.{◌≡◌, ◌↔◌, ◌<◌, IsTrue, IfOk, IfSome, length};
ghost use Rattle.std.specs.Bool.{OnFalse, OnTrue};
ghost use Rattle.std.specs.Option.{option_copied};
ghost use Rattle.em_core.specs.declared.typed.parts.Sought.TheVariants as kinds;
ghost use Rattle.em_core.specs.declared.ty.Ty.{out-Ty, size-Ty};
ghost use Rattle.em_core.specs.Deciding as deciding;
ghost use Rattle.em_core.specs.Deciding.{DefFinds, FieldFinds, HasPart, IsMarked, MarkedAt, MarkedWhole, MarksRight, Reaches, Shows};
ghost use Rattle.em_core.specs.Types.{Drops, HoldsReference, IsDropFree, Refers};

use crate::definition::{TypeDef, Variant};
use crate::program::Core;
use crate::ty::Ty;
use em_base::NoMemory;
use std::alloc::Global;

/// What a part is looked for.
#[derive(Clone, Copy)]
pub enum Sought {
    /// One that may have a Drop impl.
    Drops,
    /// One that is a reference.
    References,
}

/// Whether a type itself may have a Drop impl.
#[tactic(auto, unfolding(crate::specs::Types::Drops))]
fn drops(core: &Core, ty: &Ty) -> bool
    ensures { IsTrue result ↔ Drops core.now (out-Ty ty.now) }
{
    match ty {
        Ty::Def(def) => match core.types.get(*def as usize) {
            Some(found) => found.drop.is_some(),
            None => false,
        },
        Ty::Dyn(_) | Ty::DynFn { .. } => true,
        Ty::Closure { drop_free, .. } => !*drop_free,
        _ => false,
    }
}

/// Whether a type itself is a reference.
#[tactic(auto, unfolding(crate::specs::Types::Refers))]
fn refers(core: &Core, ty: &Ty) -> bool
    ensures { IsTrue result ↔ Refers core.now (out-Ty ty.now) }
{
    match ty {
        Ty::Ref { .. } | Ty::DynFn { .. } => true,
        Ty::Closure { refers, .. } => *refers,
        _ => false,
    }
}

#[tactic(auto, unfolding(crate::specs::Deciding::Shows))]
fn shows(core: &Core, sought: Sought, ty: &Ty) -> bool
    ensures { IsTrue result ↔ Shows core.now sought (out-Ty ty.now) }
{
    match sought {
        Sought::Drops => drops(core, ty),
        Sought::References => refers(core, ty),
    }
}

/// The type whose parts are the type's, where it is no struct and no enum.
fn inner_type(ty: &Ty) -> Option<&Ty>
    ensures inner { option_copied result ≡ deciding.inner_type (out-Ty ty.now) }
    ensures smaller { IfSome result (λ t. size-Ty t.now < size-Ty ty.now) }
{
    match ty {
        Ty::Array(inner, _) => Some(inner.get()),
        Ty::Slice(inner) | Ty::Boxed(inner) => Some(inner.get()),
        Ty::ArrayIter(inner) | Ty::RefIter(inner) => Some(inner.get()),
        _ => None,
    }
}

fn is_marked(found: &[bool], at: usize) -> bool
    ensures { result ≡ deciding.is_marked found.now at }
{
    match found.get(at) {
        Some(mark) => *mark,
        None => false,
    }
}

fn is_found(found: &[bool], ty: &Ty) -> bool
    ensures { result ≡ deciding.is_found found.now (out-Ty ty.now) }
{
    match ty {
        Ty::Def(def) => is_marked(found, *def as usize),
        _ => false,
    }
}

/// Whether the type has such a part, as far as the marks of structs and enums tell.
#[tactic(auto, using(crate::proofs::PartLemmas::reached, crate::proofs::PartLemmas::reached_by_mark, crate::proofs::PartLemmas::reached_within, crate::proofs::PartLemmas::not_reached))]
fn reaches(core: &Core, sought: Sought, found: &[bool], ty: &Ty) -> bool
    ensures { IsTrue result ↔ Reaches core.now sought found.now ty.now }
{
    if shows(core, sought, ty) || is_found(found, ty) {
        return true;
    }
    match inner_type(ty) {
        Some(inner) => reaches(core, sought, found, inner),
        None => false,
    }
}

#[tactic(auto, unfolding(crate::specs::Deciding::FieldFinds))]
fn field_finds(core: &Core, sought: Sought, found: &[bool], variant: &Variant) -> bool
    ensures { IsTrue result ↔ FieldFinds core.now sought found.now variant.now }
{
    variant
        .fields
        .as_slice()
        .iter()
        .any(|ty| reaches(core, sought, found, ty))
}

#[tactic(auto, unfolding(crate::specs::Deciding::DefFinds))]
fn def_finds(core: &Core, sought: Sought, found: &[bool], def: &TypeDef) -> bool
    ensures { IsTrue result ↔ DefFinds core.now sought found.now def.now }
{
    def.variants
        .as_slice()
        .iter()
        .any(|variant| field_finds(core, sought, found, variant))
}

/// Marks a struct or an enum if it has such a part by what is marked so far. Whether a mark was set.

fn mark(core: &Core, sought: Sought, found: &mut [bool], at: usize) -> bool
    requires within { at < length core.now.types }
    requires same { length found.old ≡ length core.now.types }
    ensures same { length found.new ≡ length found.old }
    ensures right { MarksRight core.now sought found.old → MarksRight core.now sought found.new }
    ensures fewer { OnTrue result (deciding.missing found.new < deciding.missing found.old) }
    ensures whole { OnFalse result (MarkedAt core.now sought found.new at) }
    ensures unchanged { OnFalse result (found.new ≡ found.old) }
{
    if is_marked(found, at) {
        return false;
    }
    if !def_finds(core, sought, found, &core.types.as_slice()[at]) {
        return false;
    }
    found[at] = true;
    true
}

/// Looks at each struct and enum once. Whether a mark was set.
#[tactic(auto, using(crate::proofs::PartLemmas::marking_start, crate::proofs::PartLemmas::marking_new, crate::proofs::PartLemmas::marking_same, crate::proofs::PartLemmas::marking_end))]
fn mark_all(core: &Core, sought: Sought, found: &mut [bool]) -> bool
    requires { length found.old ≡ length core.now.types }
    ensures same { length found.new ≡ length found.old }
    ensures right { MarksRight core.now sought found.old → MarksRight core.now sought found.new }
    ensures fewer { OnTrue result (deciding.missing found.new < deciding.missing found.old) }
    ensures whole { OnFalse result (MarkedWhole core.now sought found.new) }
{
    let mut changed = false;
    for at in 0..core.types.len() {
        if mark(core, sought, found, at) {
            changed = true;
        }
    }
    changed
}

/// The marks of all structs and enums. It takes as many looks at each as they nest against the order of their numbers.
#[tactic(auto, using(crate::proofs::PartLemmas::no_mark_start, crate::proofs::PartLemmas::no_mark_more, crate::proofs::PartLemmas::no_mark_right), unfolding(crate::specs::Deciding::IsMarked))]
pub fn marks(alloc: Global, core: &Core, sought: Sought) -> Result<Vec<bool>, NoMemory>
    ensures { IfOk result (λ found. IsMarked core.now sought found.items) }
{
    let mut found = Vec::new(alloc);
    for _ in 0..core.types.len() {
        found.push(false)?;
    }
    loop {
        if !mark_all(core, sought, &mut found) {
            return Ok(found);
        }
    }
}

/// Whether a part of the type is what is sought, by all marks.
#[tactic(auto, using(crate::proofs::PartLemmas::there, crate::proofs::PartLemmas::all_reached), unfolding(crate::specs::Deciding::IsMarked))]
fn has_part(core: &Core, sought: Sought, found: &[bool], ty: &Ty) -> bool
    requires { IsMarked core.now sought found.now }
    ensures { IsTrue result ↔ HasPart core.now sought ty.now }
{
    reaches(core, sought, found, ty)
}

/// Whether no part of the type has a Drop impl, by the marks of types with one.
#[tactic(auto, using(crate::proofs::PartLemmas::drop_free, crate::proofs::PartLemmas::not_drop_free))]
pub fn is_drop_free(core: &Core, drops: &[bool], ty: &Ty) -> bool
    requires { IsMarked core.now kinds.Drops drops.now }
    ensures { IsTrue result ↔ IsDropFree core.now ty.now }
{
    !has_part(core, Sought::Drops, drops, ty)
}

/// Whether a part of the type is a reference, by the marks of types with one.
#[tactic(auto, using(crate::proofs::PartLemmas::holds, crate::proofs::PartLemmas::not_holds))]
pub fn holds_reference(core: &Core, references: &[bool], ty: &Ty) -> bool
    requires { IsMarked core.now kinds.References references.now }
    ensures { IsTrue result ↔ HoldsReference core.now ty.now }
{
    has_part(core, Sought::References, references, ty)
}
