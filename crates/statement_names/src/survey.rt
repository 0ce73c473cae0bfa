//! The search for the first fault: each name, literal and first word of the file, in reading order.

ghost use Rattle.std.specs.Prelude.{◌≡◌, ◌-◌, Some, None, OnOk, OnErr, IfErr};
ghost use Rattle.std.specs.Result.{result_err};
ghost use Rattle.lists.specs.Stop.{Explains};
ghost use Rattle.statement_names.specs.Faults.{name_fault_of, short_of};
ghost use Rattle.statement_names.specs.Limits.{map_limit_of};
ghost use Rattle.statement_names.specs.Occurrences.{begins_order, begins_assumptions, begins_claim, begins_shape};
ghost use Rattle.statement_names.specs.Survey.{fault_at, behind};

use crate::kinds::{Kinds, kinds_of};
use adjoint_rules::{ASSUMPTION_LIMIT, CLAIM_LIMIT, SHAPE_LIMIT};
use lists::Stop;
use quiver::{MAP_LIMIT, OBJECT_LIMIT};
use statement_syntax::{Statement, StatementKind};
use statement_tokens::{Fault, Placed, Spot};
use std::alloc::Global;

/// The greatest number of maps of a file of the first language.
pub const FIRST_MAP_LIMIT: u32 = 200;

/// What the whole file declares, how many maps it may declare, and how many more of each there may be.
#[derive(Drop)]
pub struct Survey {
    pub kinds: Kinds,
    pub map_limit: u32,
    pub objects: u32,
    pub maps: u32,
    pub orders: u32,
    pub assumptions: u32,
    pub claims: u32,
    pub shapes: u32,
}

/// Finds the first fault of the names, the literals and the numbers of statements.
#[tactic(auto, using(std::proofs::lemmas::Grind::common_steps, crate::proofs::Runs::run_on))]
pub fn check_names(alloc: Global, statements: &[Statement]) -> Result<(), Stop<Placed>>
    ensures ok { OnOk result (name_fault_of statements.now ≡ None) }
    ensures err { IfErr result (Explains (λ fault. name_fault_of statements.now ≡ Some fault)) }
{
    let map_limit = map_limit_of(statements);
    let mut survey = Survey {
        kinds: kinds_of(alloc, statements)?,
        map_limit,
        objects: OBJECT_LIMIT,
        maps: map_limit,
        orders: 1,
        assumptions: ASSUMPTION_LIMIT,
        claims: CLAIM_LIMIT,
        shapes: SHAPE_LIMIT,
    };
    for statement in statements {
        if let Err(stop) = survey.statement(alloc, statement) {
            drop(survey);
            return Err(stop);
        }
    }
    drop(survey);
    Ok(())
}

// How many maps a file may declare: as many as a quiver, where the first statement names the second language.
fn map_limit_of(statements: &[Statement]) -> u32
    ensures { result ≡ map_limit_of statements.now }
{
    match statements.first() {
        Some(
            Statement {
                kind: StatementKind::Language,
                ..
            },
        ) => MAP_LIMIT,
        _ => FIRST_MAP_LIMIT,
    }
}

/// Takes room for this many more, or returns the fault and leaves the room as it was.
pub fn take_room(room: &mut u32, more: u32, fault: Placed) -> Result<(), Placed>
    ensures answer { result_err result ≡ short_of room.old more fault }
    ensures left { OnOk result (room.new ≡ room.old - more) }
    ensures unchanged { OnErr result (room.new ≡ room.old) }
{
    if *room < more {
        return Err(fault);
    }
    *room -= more;
    Ok(())
}

impl Survey {
    // The first word of a statement of this many assumptions.
    pub(crate) fn assumptions(&mut self, count: u32, at: Spot) -> Result<(), Placed>
        ensures answer { result_err result ≡ fault_at self.old (begins_assumptions count at) }
        ensures after { OnOk result (self.new ≡ behind self.old (begins_assumptions count at)) }
    {
        let full = Fault::TooMany {
            limit: ASSUMPTION_LIMIT,
        }
        .at(at);
        take_room(&mut self.assumptions, count, full)
    }

    // The first word of a claim.
    pub(crate) fn claim(&mut self, at: Spot) -> Result<(), Placed>
        ensures answer { result_err result ≡ fault_at self.old (begins_claim at) }
        ensures after { OnOk result (self.new ≡ behind self.old (begins_claim at)) }
    {
        let full = Fault::TooMany { limit: CLAIM_LIMIT }.at(at);
        take_room(&mut self.claims, 1, full)
    }

    // The first word of a shape.
    pub(crate) fn shape(&mut self, at: Spot) -> Result<(), Placed>
        ensures answer { result_err result ≡ fault_at self.old (begins_shape at) }
        ensures after { OnOk result (self.new ≡ behind self.old (begins_shape at)) }
    {
        let full = Fault::TooMany { limit: SHAPE_LIMIT }.at(at);
        take_room(&mut self.shapes, 1, full)
    }

    // The first word of an order.
    pub(crate) fn order(&mut self, at: Spot) -> Result<(), Placed>
        ensures answer { result_err result ≡ fault_at self.old (begins_order at) }
        ensures after { OnOk result (self.new ≡ behind self.old (begins_order at)) }
    {
        take_room(&mut self.orders, 1, Fault::Double.at(at))
    }
}
