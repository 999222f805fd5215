//! Runs of small Cores, as the machine's definitions compute them. `docs/MACHINE.md` has the Rust programs that they stand for.

ghost use Rattle.std.specs.Prelude.{◌≡◌, Bool, false, [], ◌∷◌, ◌++◌, pos, negsuc, codes};
ghost use Rattle.em_base.specs.declared.int_kind.IntKind.TheVariants.{I32, U8};
ghost use Rattle.em_core.specs.declared.operator.BinaryOp.TheVariants.{Add, Subtract, Multiply, Divide, Remainder, Xor, ShiftLeft, ShiftRight};
ghost use Rattle.em_core.specs.Values.{Printed, Dropped, Panicked, PanickedWith, Aborted};
ghost use Rattle.em_core.specs.Runs.{events};
ghost use Rattle.em_core.specs.Examples.Short.{seen, invalid_after, prints, drops, int};
ghost use Rattle.em_core.specs.Examples.Drops.{owner_first, fields, moved_into_call, locals, assignment, part_moved, boxed, dropped, moved_value};
ghost use Rattle.em_core.specs.Examples.Panics.{panic_in_part, unwinding, panic_in_drop, abort, panic_in_assignment, panic_value, operation, negation, least, indexed};
ghost use Rattle.em_core.specs.Examples.Closures.{whole_variable, one_field, whole_value, copied_field, counter, two_ways, boxed_once, nested_whole, nested_field, capture_order};
ghost use Rattle.em_core.specs.Examples.Values.{by_value, broken_off, by_reference, counted, returns, matched_by_move, matched_by_reference, failing_let, trait_object, formats, kinds, complements};
ghost use Rattle.em_core.specs.Examples.Types.{InMain, whole_main, no_slot, slot_out_of_range};
ghost use Rattle.em_core.specs.Typed.{Typed};
ghost use Rattle.em_core.specs.declared.ty.Ty.{Ty, Unit};
ghost use Rattle.em_core.specs.Examples.Places.{repeated, written_through, sliced, partly_moved, out_of_box, ended_frame, closed_scope};

/// Drops come in order: fields as declared, locals in reverse, parameters last, an old value after the new one is computed.
pub fn drops_in_order()
    ensures fields { events fields 80 ≡ seen (prints (codes "end") ++ drops (codes "1") ++ drops (codes "2")) }
    ensures moved_into_call { events moved_into_call 80 ≡ seen (drops (codes "1") ++ prints (codes "end")) }
    ensures locals { events locals 120 ≡ seen (prints (codes "body") ++ drops (codes "4") ++ drops (codes "3") ++ drops (codes "2") ++ drops (codes "1") ++ prints (codes "end")) }
    ensures assignment { events assignment 80 ≡ seen (prints (codes "make") ++ drops (codes "1") ++ prints (codes "set") ++ drops (codes "2")) }
    ensures part_moved { events part_moved 120 ≡ seen (drops (codes "1") ++ prints (codes "ate") ++ prints (codes "end") ++ drops (codes "3") ++ drops (codes "2")) }
    ensures owner_first { events owner_first 80 ≡ seen (prints (codes "end") ++ Dropped 2 ∷ Printed (codes "drop W") ∷ drops (codes "1")) }
    ensures boxed { events boxed 80 ≡ seen (prints (codes "1") ++ prints (codes "end") ++ drops (codes "1")) }
    ensures dropped { events dropped 80 ≡ seen (drops (codes "1") ++ prints (codes "end")) }
    ensures moved_value { events moved_value 80 ≡ invalid_after (drops (codes "1")) }
{}

/// A panic drops what is alive on its way out, a panic in a drop goes on with what is left to drop, and a second panic aborts.
pub fn panics_unwind()
    ensures unwinding { events unwinding 120 ≡ seen (Panicked (codes "stop") ∷ drops (codes "2") ++ drops (codes "1") ++ drops (codes "3")) }
    ensures panic_in_drop { events panic_in_drop 120 ≡ seen (prints (codes "end") ++ Dropped 2 ∷ Printed (codes "drop E 1") ∷ Panicked (codes "in drop") ∷ drops (codes "1")) }
    ensures abort { events abort 120 ≡ seen (Panicked (codes "stop") ∷ Dropped 2 ∷ Printed (codes "drop E 1") ∷ Aborted ∷ []) }
    ensures panic_in_assignment { events panic_in_assignment 120 ≡ seen (Dropped 2 ∷ Printed (codes "drop E 1") ∷ Panicked (codes "in drop") ∷ Dropped 2 ∷ Printed (codes "drop E 2") ∷ []) }
    ensures panic_in_part { events panic_in_part 200 ≡ seen (Dropped 2 ∷ Printed (codes "drop E 2") ∷ Dropped 2 ∷ Printed (codes "drop E 3") ∷ Dropped 3 ∷ Printed (codes "drop V") ∷ Dropped 2 ∷ Printed (codes "drop E 1") ∷ Panicked (codes "in drop") ∷ drops (codes "2") ++ drops (codes "5")) }
    ensures panic_value { events panic_value 40 ≡ seen (PanickedWith int ∷ []) }
{}

/// Arithmetic that overflows, a zero divisor and an index out of bounds panic with the texts that Rust has.
pub fn operators_panic()
    ensures add { events (operation Add I32 (pos 2147483647) (pos 1)) 40 ≡ seen (Panicked (codes "attempt to add with overflow") ∷ []) }
    ensures subtract { events (operation Subtract U8 (pos 0) (pos 1)) 40 ≡ seen (Panicked (codes "attempt to subtract with overflow") ∷ []) }
    ensures multiply { events (operation Multiply I32 (pos 65536) (pos 32768)) 40 ≡ seen (Panicked (codes "attempt to multiply with overflow") ∷ []) }
    ensures negate { events (negation least) 40 ≡ seen (Panicked (codes "attempt to negate with overflow") ∷ []) }
    ensures divide_by_zero { events (operation Divide I32 (pos 1) (pos 0)) 40 ≡ seen (Panicked (codes "attempt to divide by zero") ∷ []) }
    ensures divide { events (operation Divide I32 least (negsuc 0)) 40 ≡ seen (Panicked (codes "attempt to divide with overflow") ∷ []) }
    ensures remainder_by_zero { events (operation Remainder I32 (pos 1) (pos 0)) 40 ≡ seen (Panicked (codes "attempt to calculate the remainder with a divisor of zero") ∷ []) }
    ensures remainder { events (operation Remainder I32 least (negsuc 0)) 40 ≡ seen (Panicked (codes "attempt to calculate the remainder with overflow") ∷ []) }
    ensures shift_left { events (operation ShiftLeft I32 (pos 1) (pos 32)) 40 ≡ seen (Panicked (codes "attempt to shift left with overflow") ∷ []) }
    ensures shift_right { events (operation ShiftRight U8 (pos 1) (pos 8)) 40 ≡ seen (Panicked (codes "attempt to shift right with overflow") ∷ []) }
    ensures index { events (indexed 5) 40 ≡ seen (Panicked (codes "index out of bounds: the len is 3 but the index is 5") ∷ []) }
    ensures in_bounds { events (indexed 2) 40 ≡ seen (prints (codes "3")) }
    ensures divided { events (operation Divide I32 (negsuc 6) (pos 2)) 40 ≡ seen (prints (codes "-3")) }
    ensures left_over { events (operation Remainder I32 (negsuc 6) (pos 2)) 40 ≡ seen (prints (codes "-1")) }
    ensures shifted { events (operation ShiftLeft U8 (pos 129) (pos 1)) 40 ≡ seen (prints (codes "2")) }
    ensures shifted_right { events (operation ShiftRight I32 (negsuc 6) (pos 1)) 40 ≡ seen (prints (codes "-4")) }
    ensures bits { events (operation Xor I32 (negsuc 0) (pos 5)) 40 ≡ seen (prints (codes "-6")) }
{}

/// What a closure captures drops where the closure drops; what it borrows or copies does not.
pub fn closures_capture()
    ensures whole_variable { events whole_variable 120 ≡ seen (drops (codes "1") ++ drops (codes "2") ++ prints (codes "end")) }
    ensures one_field { events one_field 120 ≡ seen (drops (codes "1") ++ prints (codes "end") ++ drops (codes "2")) }
    ensures whole_value { events whole_value 120 ≡ seen (prints (codes "1") ++ drops (codes "1") ++ prints (codes "end")) }
    ensures copied_field { events copied_field 120 ≡ seen (prints (codes "1") ++ prints (codes "end") ++ drops (codes "1")) }
    ensures counter { events counter 120 ≡ seen (prints (codes "6")) }
    ensures two_ways { events two_ways 120 ≡ seen (prints (codes "2") ++ drops (codes "1") ++ prints (codes "end") ++ drops (codes "2")) }
    ensures boxed_once { events boxed_once 120 ≡ seen (prints (codes "in") ++ drops (codes "1") ++ prints (codes "end")) }
{}

/// Iterators, loops, matches, trait objects and formats.
pub fn control_and_values()
    ensures by_value { events by_value 160 ≡ seen (prints (codes "1") ++ drops (codes "1") ++ prints (codes "2") ++ drops (codes "2") ++ prints (codes "end")) }
    ensures broken_off { events broken_off 160 ≡ seen (drops (codes "1") ++ drops (codes "2") ++ prints (codes "end")) }
    ensures by_reference { events by_reference 160 ≡ seen (prints (codes "1") ++ prints (codes "2") ++ drops (codes "1") ++ drops (codes "2") ++ prints (codes "end")) }
    ensures counted { events counted 160 ≡ seen (prints (codes "1") ++ prints (codes "3")) }
    ensures returns { events returns 200 ≡ seen (drops (codes "2") ++ drops (codes "1") ++ prints (codes "5") ++ drops (codes "2") ++ prints (codes "after") ++ drops (codes "1") ++ prints (codes "7")) }
    ensures matched_by_move { events matched_by_move 120 ≡ seen (prints (codes "got 1") ++ drops (codes "1") ++ prints (codes "end")) }
    ensures matched_by_reference { events matched_by_reference 120 ≡ seen (prints (codes "got 1") ++ prints (codes "end") ++ drops (codes "1")) }
    ensures failing_let { events failing_let 60 ≡ invalid_after [] }
    ensures trait_object { events trait_object 120 ≡ seen (prints (codes "show 1") ++ prints (codes "end") ++ drops (codes "1")) }
    ensures formats { events formats 60 ≡ seen (prints (codes "true and x, -5 t")) }
{}

/// Places lead through references, boxes and slices; a part that is moved out does not drop; an address that leads nowhere is invalid.
pub fn places_lead()
    ensures repeated { events repeated 160 ≡ seen (prints (codes "0") ++ prints (codes "5") ++ prints (codes "0")) }
    ensures written_through { events written_through 80 ≡ seen (prints (codes "7")) }
    ensures sliced { events sliced 80 ≡ seen (prints (codes "5") ++ Panicked (codes "index out of bounds: the len is 2 but the index is 2") ∷ []) }
    ensures partly_moved { events partly_moved 120 ≡ seen (drops (codes "1") ++ Panicked (codes "stop") ∷ drops (codes "2")) }
    ensures out_of_box { events out_of_box 80 ≡ seen (drops (codes "1") ++ prints (codes "end")) }
    ensures ended_frame { events ended_frame 80 ≡ invalid_after [] }
    ensures closed_scope { events closed_scope 80 ≡ invalid_after [] }
{}

/// A closure in a closure takes its captures from it, and captured variables drop in capture order.
pub fn closures_in_order()
    ensures nested_whole { events nested_whole 160 ≡ seen (drops (codes "2") ++ prints (codes "end") ++ drops (codes "1")) }
    ensures nested_field { events nested_field 160 ≡ seen (prints (codes "end") ++ drops (codes "1") ++ drops (codes "2")) }
    ensures capture_order { events capture_order 160 ≡ seen (prints (codes "2") ++ prints (codes "1") ++ prints (codes "end") ++ drops (codes "2") ++ drops (codes "1") ++ prints (codes "after")) }
{}

/// Literal, range and alternative patterns, and `!`.
pub fn patterns_and_complements()
    ensures kinds { events kinds 160 ≡ seen (prints (codes "1") ++ prints (codes "2") ++ prints (codes "3") ++ prints (codes "4")) }
    ensures complements { events complements 80 ≡ seen (prints (codes "-6") ++ prints (codes "255") ++ prints (codes "false")) }
{}

/// A body whose parts fit gives its type, and an expression that names a slot out of range has none.
pub fn types_fit()
    ensures whole_main { InMain whole_main Unit false }
    ensures no_slot { (t : Ty) (ends : Bool) → InMain no_slot t ends → ⊥ }
{}

/// Whole Cores are typed, one with a trait object and one with a closure that holds a value with a Drop impl; a Core that names a slot out of range is not.
pub fn cores_typed()
    ensures trait_object { Typed trait_object }
    ensures boxed_once { Typed boxed_once }
    ensures slot_out_of_range { Typed slot_out_of_range → ⊥ }
{}
