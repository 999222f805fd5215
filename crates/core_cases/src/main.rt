//! Asks of a small Core whether it is typed, and of the same Core with one fault after another, and prints the answers.
#![tactic(auto)]

use em_base::{IntKind, List, Name, NoMemory, Place};
use em_core::{
    Base, Constant, Core, Expr, Function, Methods, PlaceExpr, Ty, TypeDef, Variant, is_typed,
};
use sqlite_items::{Boxed, Items};
use std::alloc::Global;
use std::process::ExitCode;

/// What is wrong with the Core of `struct D(i32);`, which has a Drop impl, `fn eat(d: D) {}` and
/// `fn main() { let a = D(1); eat(a); }`.
#[derive(Clone, Copy, PartialEq, Eq)]
enum Fault {
    None,
    /// No function is the entry.
    NoEntry,
    /// The entry is `eat`.
    EntryWithParameter,
    /// `main` moves a slot that it doesn't have.
    SlotOutOfRange,
    /// The slot is of a type that isn't there.
    TypeOutOfRange,
    /// `eat` is called without an argument.
    FewArguments,
    /// `D(true)`
    OtherField,
    /// The Drop impl's function isn't there.
    NoDropFunction,
    /// The Drop impl's function takes the value.
    DropTakesValue,
    /// `D` derives `Copy`.
    CopyWithDrop,
    /// The slot is opened twice.
    SlotOpenedTwice,
    /// `break` in no loop.
    BreakOutside,
}

const CASES: [(&str, Fault); 12] = [
    ("no fault", Fault::None),
    ("no entry", Fault::NoEntry),
    ("entry with a parameter", Fault::EntryWithParameter),
    ("slot out of range", Fault::SlotOutOfRange),
    ("type out of range", Fault::TypeOutOfRange),
    ("too few arguments", Fault::FewArguments),
    ("field of another type", Fault::OtherField),
    ("no drop function", Fault::NoDropFunction),
    ("drop takes the value", Fault::DropTakesValue),
    ("Copy with a Drop impl", Fault::CopyWithDrop),
    ("slot opened twice", Fault::SlotOpenedTwice),
    ("break outside of a loop", Fault::BreakOutside),
];

fn list_of<T: Drop>(alloc: Global, item: T) -> Result<List<T>, NoMemory> {
    let mut list = List::new(alloc);
    list.push(item)?;
    Ok(list)
}

/// `struct D(i32);`
fn type_of(alloc: Global, fault: Fault) -> Result<TypeDef, NoMemory> {
    let fields = list_of(alloc, Ty::Int(IntKind::I32))?;
    let drop = match fault {
        Fault::NoDropFunction => 9,
        Fault::DropTakesValue => 1,
        _ => 0,
    };
    Ok(TypeDef {
        path: list_of(alloc, Name::normal(alloc, "D")?)?,
        variants: list_of(alloc, Variant { fields })?,
        copy: fault == Fault::CopyWithDrop,
        drop: Some(drop),
    })
}

/// `&mut D`
fn unique(alloc: Global) -> Result<Ty, NoMemory> {
    Ok(Ty::Ref {
        to: Boxed::new(alloc, Ty::Def(0))?,
        unique: true,
    })
}

const START: Place = Place { file: 0, offset: 0 };

/// `fn drop(&mut self) {}`
fn drop_function(alloc: Global) -> Result<Function, NoMemory> {
    Ok(Function {
        item: START,
        parameters: list_of(alloc, unique(alloc)?)?,
        result: Ty::Unit,
        slots: list_of(alloc, unique(alloc)?)?,
        body: Expr::Const(Constant::Unit),
        closures: List::new(alloc),
    })
}

/// `fn eat(d: D) {}`
fn eat(alloc: Global) -> Result<Function, NoMemory> {
    Ok(Function {
        item: START,
        parameters: list_of(alloc, Ty::Def(0))?,
        result: Ty::Unit,
        slots: list_of(alloc, Ty::Def(0))?,
        body: Expr::Const(Constant::Unit),
        closures: List::new(alloc),
    })
}

/// `let a = D(1);`
fn let_a(alloc: Global, fault: Fault) -> Result<Expr, NoMemory> {
    let field = match fault {
        Fault::OtherField => Constant::Bool(true),
        _ => Constant::Int {
            kind: IntKind::I32,
            value: 1,
        },
    };
    let mut fields = Items::new(alloc);
    fields.push(Expr::Const(field))?;
    let built = Expr::Build {
        def: 0,
        variant: 0,
        fields,
    };
    Ok(Expr::Init {
        slot: 0,
        value: Boxed::new(alloc, built)?,
    })
}

/// `eat(a)`
fn call(alloc: Global, fault: Fault) -> Result<Expr, NoMemory> {
    let slot = match fault {
        Fault::SlotOutOfRange => 1,
        _ => 0,
    };
    let mut arguments = Items::new(alloc);
    if fault != Fault::FewArguments {
        arguments.push(Expr::Move(PlaceExpr {
            base: Base::Slot(slot),
            steps: List::new(alloc),
        }))?;
    }
    Ok(Expr::Call {
        function: 1,
        arguments,
    })
}

/// `fn main() { let a = D(1); eat(a); }`
fn main_function(alloc: Global, fault: Fault) -> Result<Function, NoMemory> {
    let mut parts = Items::new(alloc);
    parts.push(let_a(alloc, fault)?)?;
    parts.push(call(alloc, fault)?)?;
    if fault == Fault::BreakOutside {
        parts.push(Expr::Break)?;
    }
    let mut slots = list_of(alloc, 0)?;
    if fault == Fault::SlotOpenedTwice {
        slots.push(0)?;
    }
    let slot = match fault {
        Fault::TypeOutOfRange => Ty::Def(1),
        _ => Ty::Def(0),
    };
    Ok(Function {
        item: START,
        parameters: List::new(alloc),
        result: Ty::Unit,
        slots: list_of(alloc, slot)?,
        body: Expr::Scope {
            slots,
            body: Boxed::new(alloc, Expr::Seq(parts))?,
        },
        closures: List::new(alloc),
    })
}

fn core_of(alloc: Global, fault: Fault) -> Result<Core, NoMemory> {
    let mut functions = list_of(alloc, drop_function(alloc)?)?;
    functions.push(eat(alloc)?)?;
    functions.push(main_function(alloc, fault)?)?;
    let entry = match fault {
        Fault::NoEntry => None,
        Fault::EntryWithParameter => Some(1),
        _ => Some(2),
    };
    Ok(Core {
        types: list_of(alloc, type_of(alloc, fault)?)?,
        functions,
        methods: Methods {
            methods: List::new(alloc),
            impls: List::new(alloc),
        },
        entry,
    })
}

fn answer(alloc: Global, fault: Fault) -> Result<&'static str, NoMemory> {
    let core = core_of(alloc, fault)?;
    Ok(if is_typed(alloc, &core)? {
        "typed"
    } else {
        "not typed"
    })
}

fn main(rt: HostRuntime) -> ExitCode {
    for (name, fault) in CASES {
        let Ok(answer) = answer(rt.alloc(), fault) else {
            return ExitCode::from(6);
        };
        if println!(rt; "{name}: {answer}").is_err() {
            return ExitCode::FAILURE;
        }
    }
    ExitCode::SUCCESS
}
