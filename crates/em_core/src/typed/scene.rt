//! The types of expressions in a body.

ghost use Rattle.std.specs.Prelude.{◌≡◌, ◌↔◌, ◌||◌, IsTrue, IfOk, option_map, option_and_then, slice_get};
ghost use Rattle.em_core.specs.declared.expr.Expr.{out-Expr};
ghost use Rattle.em_core.specs.declared.ty.Ty as shapes;
ghost use Rattle.em_core.specs.Facts as facts;
ghost use Rattle.em_core.specs.Fitting as fitting;
ghost use Rattle.em_core.specs.Naming as naming;
ghost use Rattle.em_core.specs.Deciding.{Finds, FindsByOperands};
ghost use Rattle.em_core.specs.Rules as rules;
ghost use Rattle.em_core.specs.Rules.{Asks};
ghost use Rattle.em_core.specs.declared.ty.Ty.{out-Ty};

use crate::copying::is_copy_type;
use crate::expr::Expr;
use crate::function::Variable;
use crate::place::PlaceExpr;
use crate::program::Core;
use crate::ty::Ty;
use crate::typed::asks::{
    begins_with_bool, call_by_fits, call_dyn_fits, call_fits, call_once_fits, captures_stand,
    compares_fit, constant_fits, each_copy, fields_fit, format_fits, match_fits, next_fits,
    one_type, place_fits, rest_types, slot_fits, slot_is, slots_exist,
};
use crate::typed::calls::{result_of, unboxed};
use crate::typed::children::child_at;
use crate::typed::coercions::unsizes;
use crate::typed::copied::copy_type;
use crate::typed::fits::{binary_takes, branches_fit, each_fits, each_is, is_sized, unary_takes};
use crate::typed::given::{
    array, boxed, branch_type, constant_type, iterator_type, loop_type, range_type, reference,
    reference_iterator_type, sequence_type,
};
use crate::typed::places::{closure_of, place_type};
use crate::typed::type_ok::value_type_ok;
use em_base::NoMemory;
use sqlite_items::Items;
use std::alloc::Global;

/// A body: its slots, its captured variables where it is a closure's, and the result that it has to give.
#[derive(Clone, Copy)]
pub struct Scene<'a> {
    pub alloc: Global,
    pub core: &'a Core,
    pub slots: &'a [Ty],
    pub roots: &'a [Variable],
    pub result: &'a Ty,
}

/// What is known of an expression: its type, and whether it may end the loop around it.
#[derive(Drop)]
pub struct Given {
    pub ty: Ty,
    pub ends: bool,
}

impl Scene<'_> {
    fn of_place(&self, place: &PlaceExpr) -> Result<Option<Ty>, NoMemory>
        ensures { IfOk result (λ o. o ≡ naming.place_type self.now.core.now self.now.slots.now self.now.roots.now place.now) }
    {
        match place_type(self.core, self.slots, self.roots, place) {
            Some(ty) => Ok(Some(copy_type(self.alloc, ty)?)),
            None => Ok(None),
        }
    }

    fn reference_to(&self, place: &PlaceExpr, unique: bool) -> Result<Option<Ty>, NoMemory>
        ensures { IfOk result (λ o. o ≡ option_map (λ t. shapes.Ref t unique) (naming.place_type self.now.core.now self.now.slots.now self.now.roots.now place.now)) }
    {
        match place_type(self.core, self.slots, self.roots, place) {
            Some(ty) => Ok(Some(reference(self.alloc, ty, unique)?)),
            None => Ok(None),
        }
    }

    fn first(&self, types: &[Ty]) -> Result<Option<Ty>, NoMemory>
        ensures { IfOk result (λ o. o ≡ rules.first_type types.now) }
    {
        match types {
            [first, ..] => Ok(Some(copy_type(self.alloc, first)?)),
            [] => Ok(None),
        }
    }

    fn repeated(&self, types: &[Ty], count: u64) -> Result<Option<Ty>, NoMemory>
        ensures { IfOk result (λ o. o ≡ option_map (λ t. shapes.Array t count) (rules.first_type types.now)) }
    {
        match types {
            [first, ..] => Ok(Some(array(self.alloc, first, count)?)),
            [] => Ok(None),
        }
    }

    fn range_over(&self, types: &[Ty]) -> Option<Ty>
        ensures { result ≡ option_and_then (λ t. fitting.range_type (out-Ty t)) (rules.first_type types.now) }
    {
        match types {
            [first, ..] => range_type(first),
            [] => None,
        }
    }

    fn closure_type(&self, id: u32) -> Result<Option<Ty>, NoMemory>
        ensures { IfOk result (λ o. o ≡ option_map (λ c. c.ty) (facts.closure_of self.now.core.now id)) }
    {
        match closure_of(self.core, id) {
            Some(entry) => Ok(Some(copy_type(self.alloc, &entry.ty)?)),
            None => Ok(None),
        }
    }

    fn of_call(&self, function: u32) -> Result<Option<Ty>, NoMemory>
        ensures { IfOk result (λ o. o ≡ option_map (λ g. g.result) (slice_get self.now.core.now.functions function)) }
    {
        match self.core.functions.get(function as usize) {
            Some(found) => Ok(Some(copy_type(self.alloc, &found.result)?)),
            None => Ok(None),
        }
    }

    fn of_call_dyn(&self, method: u32) -> Result<Option<Ty>, NoMemory>
        ensures { IfOk result (λ o. o ≡ option_map (λ s. s.result) (option_and_then (λ x. x.on_object) (slice_get self.now.core.now.methods.methods method))) }
    {
        match self.core.methods.methods.get(method as usize) {
            Some(found) => match &found.on_object {
                Some(signature) => Ok(Some(copy_type(self.alloc, &signature.result)?)),
                None => Ok(None),
            },
            None => Ok(None),
        }
    }

    fn of_value(&self, ty: &Ty) -> Result<Option<Ty>, NoMemory>
        ensures { IfOk result (λ o. o ≡ naming.result_of self.now.core.now (out-Ty ty.now)) }
    {
        match result_of(self.core, ty) {
            Some(found) => Ok(Some(copy_type(self.alloc, found)?)),
            None => Ok(None),
        }
    }

    fn of_call_by(&self, place: &PlaceExpr) -> Result<Option<Ty>, NoMemory>
        ensures { IfOk result (λ o. o ≡ option_and_then (λ t. naming.result_of self.now.core.now (out-Ty t)) (naming.place_type self.now.core.now self.now.slots.now self.now.roots.now place.now)) }
    {
        match place_type(self.core, self.slots, self.roots, place) {
            Some(ty) => self.of_value(ty),
            None => Ok(None),
        }
    }

    fn of_call_once(&self, types: &[Ty]) -> Result<Option<Ty>, NoMemory>
        ensures { IfOk result (λ o. o ≡ option_and_then (λ t. naming.result_of self.now.core.now (out-Ty (naming.unboxed t (out-Ty t)))) (rules.first_type types.now)) }
    {
        match types {
            [first, ..] => self.of_value(unboxed(first)),
            [] => Ok(None),
        }
    }

    fn iterator_over(&self, types: &[Ty]) -> Result<Option<Ty>, NoMemory>
        ensures { IfOk result (λ o. o ≡ option_and_then (λ t. fitting.iterator_type (out-Ty t)) (rules.first_type types.now)) }
    {
        match types {
            [first, ..] => iterator_type(self.alloc, first),
            [] => Ok(None),
        }
    }

    fn iterator_through(&self, types: &[Ty]) -> Result<Option<Ty>, NoMemory>
        ensures { IfOk result (λ o. o ≡ option_and_then (λ t. fitting.reference_iterator_type (out-Ty t)) (rules.first_type types.now)) }
    {
        match types {
            [first, ..] => reference_iterator_type(self.alloc, first),
            [] => Ok(None),
        }
    }

    /// The type that the form of an expression gives whose operands give these types.
    fn type_given(&self, e: &Expr, types: &[Ty], ends: bool) -> Result<Option<Ty>, NoMemory>
        ensures { IfOk result (λ o. o ≡ rules.type_given self.now.core.now self.now.slots.now self.now.roots.now self.now.result.now (out-Expr e.now) types.now ends) }
    {
        match e {
            Expr::Const(constant) => Ok(Some(constant_type(self.alloc, constant)?)),
            Expr::Copy(place) => self.of_place(place),
            Expr::Move(place) => self.of_place(place),
            Expr::Ref { place, unique } => self.reference_to(place, *unique),
            Expr::Unary(..) => self.first(types),
            Expr::Binary(..) => self.first(types),
            Expr::Compare(..) => Ok(Some(Ty::Bool)),
            Expr::Build { def, .. } => Ok(Some(Ty::Def(*def))),
            Expr::ArrayOf { element, elements } => Ok(Some(array(
                self.alloc,
                element,
                elements.len() as u64,
            )?)),
            Expr::Repeat { count, .. } => self.repeated(types, *count),
            Expr::BoxNew { content, .. } => Ok(Some(boxed(self.alloc, content)?)),
            Expr::RangeOf { .. } => Ok(self.range_over(types)),
            Expr::MakeClosure(id) => self.closure_type(*id),
            Expr::Call { function, .. } => self.of_call(*function),
            Expr::CallDyn { method, .. } => self.of_call_dyn(*method),
            Expr::CallBy { closure, .. } => self.of_call_by(closure),
            Expr::CallOnce { .. } => self.of_call_once(types),
            Expr::If { .. } => Ok(Some(branch_type(self.alloc, rest_types(types))?)),
            Expr::Match { .. } => Ok(Some(branch_type(self.alloc, types)?)),
            Expr::Loop(_) => Ok(Some(loop_type(ends))),
            Expr::Break => Ok(Some(Ty::Never)),
            Expr::Continue => Ok(Some(Ty::Never)),
            Expr::Return(_) => Ok(Some(Ty::Never)),
            Expr::Scope { .. } => self.first(types),
            Expr::Seq(_) => Ok(Some(sequence_type(self.alloc, types)?)),
            Expr::Panic { .. } => Ok(Some(Ty::Never)),
            Expr::PanicValue { .. } => Ok(Some(Ty::Never)),
            Expr::ToIter(_) => self.iterator_over(types),
            Expr::ToRefIter(_) => self.iterator_through(types),
            Expr::Unsize { to, .. } => Ok(Some(copy_type(self.alloc, to)?)),
            Expr::Init { .. } => Ok(Some(Ty::Unit)),
            Expr::Assign { .. } => Ok(Some(Ty::Unit)),
            Expr::Print { .. } => Ok(Some(Ty::Unit)),
            Expr::Next { .. } => Ok(Some(Ty::Unit)),
            Expr::DropValue { .. } => Ok(Some(Ty::Unit)),
        }
    }

    /// Whether what the form of an expression asks is met, where its operands and it give these types.
    #[tactic(auto, unfolding(crate::specs::Rules::Asks))]
    fn asks(&self, e: &Expr, looping: bool, types: &[Ty], given: &Ty) -> bool
        ensures { IsTrue result ↔ Asks self.now.core.now self.now.slots.now self.now.roots.now self.now.result.now looping (out-Expr e.now) types.now given.now }
    {
        match e {
            Expr::Const(constant) => constant_fits(constant),
            Expr::Copy(_) => is_copy_type(self.core, given),
            Expr::Move(_) => is_sized(given),
            Expr::Ref { .. } => true,
            Expr::Init { slot, .. } => slot_fits(self.slots, *slot, types),
            Expr::Assign { place, .. } => place_fits(
                self.core, self.slots, self.roots, place, types,
            ),
            Expr::Unary(op, _) => unary_takes(*op, given),
            Expr::Binary(op, _, _) => each_is(types, given) && binary_takes(*op, given),
            Expr::Compare(..) => compares_fit(types),
            Expr::Build { def, variant, .. } => fields_fit(self.core, *def, *variant, types),
            Expr::ArrayOf { element, .. } => value_type_ok(self.core, element)
                && each_fits(types, element),
            Expr::Repeat { .. } => each_copy(self.core, types),
            Expr::BoxNew { content, .. } => value_type_ok(self.core, content)
                && each_fits(types, content),
            Expr::RangeOf { .. } => one_type(types),
            Expr::MakeClosure(id) => captures_stand(self.core, self.slots, self.roots, *id),
            Expr::Call { function, .. } => call_fits(self.core, *function, types),
            Expr::CallDyn { method, .. } => call_dyn_fits(self.core, *method, types),
            Expr::CallBy { closure, .. } => call_by_fits(
                self.core, self.slots, self.roots, closure, types,
            ),
            Expr::CallOnce { .. } => call_once_fits(self.core, types),
            Expr::If { .. } => begins_with_bool(types) && branches_fit(rest_types(types), given),
            Expr::Match { place, arms } => {
                match_fits(self.core, self.slots, self.roots, place, arms.as_slice())
                    && branches_fit(types, given)
            }
            Expr::Loop(_) => each_fits(types, &Ty::Unit),
            Expr::Break => looping,
            Expr::Continue => looping,
            Expr::Return(_) => each_fits(types, self.result),
            Expr::Scope { slots, .. } => slots_exist(self.slots, slots.as_slice()),
            Expr::Seq(_) => true,
            Expr::Print { pieces, .. } => format_fits(pieces.as_slice(), types),
            Expr::Panic { pieces, .. } => format_fits(pieces.as_slice(), types),
            Expr::PanicValue { ty, .. } => value_type_ok(self.core, ty) && each_is(types, ty),
            Expr::ToIter(_) => true,
            Expr::ToRefIter(_) => true,
            Expr::Next { iterator, slot } => looping
                && next_fits(self.core, self.slots, self.roots, iterator, *slot),
            Expr::DropValue { slot, .. } => slot_is(self.slots, *slot, types),
            Expr::Unsize { from, to, .. } => {
                value_type_ok(self.core, from)
                    && value_type_ok(self.core, to)
                    && each_fits(types, from)
                    && unsizes(self.core, from, to)
            }
        }
    }

    /// What the expression gives where its operands give these types.
    fn by_operands(
        &self,
        e: &Expr,
        looping: bool,
        types: &[Ty],
        ends: bool,
    ) -> Result<Option<Given>, NoMemory>
        ensures { IfOk result (λ o. FindsByOperands self.now.core.now self.now.slots.now self.now.roots.now self.now.result.now looping e.now types.now ends o) }
    {
        let Some(ty) = self.type_given(e, types, ends)? else {
            return Ok(None);
        };
        if !self.asks(e, looping, types, &ty) {
            return Ok(None);
        }
        Ok(Some(Given {
            ty,
            ends: may_end(e, ends),
        }))
    }

    /// The type of an expression, or `None` where it has none.
    pub fn type_of(&self, e: &Expr, looping: bool) -> Result<Option<Given>, NoMemory>
        ensures { IfOk result (λ o. Finds self.now.core.now self.now.slots.now self.now.roots.now self.now.result.now looping e.now o) }
    {
        let inside = in_loop(e, looping);
        let mut types = Items::new(self.alloc);
        let mut ends = false;
        let mut at = 0;
        while let Some(child) = child_at(e, at) {
            let Some(given) = self.type_of(child, inside)? else {
                return Ok(None);
            };
            types.push(given.ty)?;
            ends = either(ends, given.ends);
            at += 1;
        }
        self.by_operands(e, looping, types.as_slice(), ends)
    }
}

/// Whether the operands of an expression stand in a loop.
fn in_loop(e: &Expr, looping: bool) -> bool
    ensures { result ≡ rules.in_loop looping (out-Expr e.now) }
{
    match e {
        Expr::Loop(_) => true,
        _ => looping,
    }
}

/// Whether an expression may end the loop around it, where that is told of its operands.
fn may_end(e: &Expr, ends: bool) -> bool
    ensures { result ≡ rules.may_end (out-Expr e.now) ends }
{
    match e {
        Expr::Break => true,
        Expr::Next { .. } => true,
        Expr::Loop(_) => false,
        _ => ends,
    }
}

fn either(a: bool, b: bool) -> bool
    ensures { result ≡ (a || b) }
{
    a || b
}
