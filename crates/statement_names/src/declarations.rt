//! The quiver of a file: all its objects, and then all its maps.

ghost use Rattle.std.specs.Prelude.{◌≡◌, ◌++◌, None, IfOk, OnOk};
ghost use Rattle.statement_names.specs.Faults.{name_fault_of};
ghost use Rattle.statement_names.specs.Numbered.{objects_in, maps_in, declarations_of, HasEnds, AreFirst};

use abbreviations::object_of;
use quiver::Quiver;
use statement_syntax::{Statement, StatementKind};
use std::alloc::{AllocError, Global};

/// The quiver of statements whose names have no fault.
#[tactic(auto, using(crate::proofs::FileDeclared::each_fits))]
pub fn declare_all(alloc: Global, statements: &[Statement]) -> Result<Quiver, AllocError>
    requires { name_fault_of statements.now ≡ None }
    ensures { IfOk result (λ quiver. quiver ≡ declarations_of statements.now) }
{
    let mut quiver = Quiver::new(alloc)?;
    for statement in statements {
        if let Err(failed) = add_objects(&mut quiver, &statement.kind) {
            drop(quiver);
            return Err(failed);
        }
    }
    for statement in statements {
        if let Err(failed) = add_maps(&mut quiver, &statement.kind) {
            drop(quiver);
            return Err(failed);
        }
    }
    Ok(quiver)
}

// Declares the objects of a statement.
fn add_objects(quiver: &mut Quiver, statement: &StatementKind) -> Result<(), AllocError>
    requires { AreFirst (quiver.old ++ objects_in statement.now) }
    ensures { OnOk result (quiver.new ≡ quiver.old ++ objects_in statement.now) }
{
    if let StatementKind::Objects(names) = statement {
        for name in names.as_slice() {
            quiver.declare_object(name.text.as_str())?;
        }
    }
    Ok(())
}

// Declares the maps of a statement between objects that are declared.
fn add_maps(quiver: &mut Quiver, statement: &StatementKind) -> Result<(), AllocError>
    requires ends { HasEnds quiver.old statement.now }
    requires fits { AreFirst (quiver.old ++ maps_in quiver.old statement.now) }
    ensures { OnOk result (quiver.new ≡ quiver.old ++ maps_in quiver.old statement.now) }
{
    if let StatementKind::Maps {
        names,
        source,
        target,
        selfmade,
    } = statement
    {
        let source = object_of(quiver, source);
        let target = object_of(quiver, target);
        for name in names.as_slice() {
            quiver.declare_map(name.text.as_str(), source, target, *selfmade)?;
        }
    }
    Ok(())
}
