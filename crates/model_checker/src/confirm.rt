//! Whether a model refutes its claim.
ghost use Rattle.std.specs.Prelude.{IfOk, IfErr, OnOk, IfSome, IfNone, IsTrue, ◌↔◌};
ghost use Rattle.std.specs.List.{AllByRecursion};
ghost use Rattle.definitions.specs.Quiver.{letters};
ghost use Rattle.quiver.specs.Declarations.{quiver_of};
ghost use Rattle.model_checker.specs.Models.{IsModel, HaveMatrices, IsClaimNumber, IsFitting, IsZeroIn, assumptions_of, claim_polynomial, Refutes};
ghost use Rattle.model_checker.specs.Refusals.{RefusesModel, IsFirstNotZero};
ghost use Rattle.model_checker.specs.Memory.{IsMemory};
ghost use Rattle.model_checker.specs.Listed.{AreOfModel};

use crate::ModelRefusal;
use crate::maps::check_maps;
use crate::representation::representation_of;
use crate::value::is_zero;
use adjoint_rules::Problem;
use matrix_models::{Matrices, Model};
use representations::Representation;
use std::alloc::{AllocError, Global};

/// Whether the model refutes the claim that it names: each declared map has a matrix of the model's modulus, with the
/// sides of its ends, and its own transpose where the map is its own adjoint; the assumptions of the statement are zero
/// in it, and the claim isn't. The model has a modulus, a side for each object and an entry for each letter.
///
/// Each refusal is returned exactly where its test is the first that fails; `Memory` can come at any time.
pub fn confirm_model(alloc: Global, problem: &Problem, model: &Model) -> Result<(), ModelRefusal>
    requires { IsModel (quiver_of problem.now.parts.quiver) model.now }
    ensures confirmed { OnOk result (Refutes problem.now model.now) }
    ensures refused { IfErr result (RefusesModel problem.now model.now) }
    ensures complete { Refutes problem.now model.now → IfErr result IsMemory }
{
    let parts = &problem.parts;
    if model.claim == 0 || model.claim as usize > parts.claims.len() {
        return Err(ModelRefusal::NoSuchClaim);
    }
    check_maps(alloc, &parts.quiver, model)?;
    check_model(alloc, problem, model)
}

/// Whether the model refutes the claim that it names. It names one, and each declared map has its matrix. It fails only where
/// memory is short.
pub fn refutes(alloc: Global, problem: &Problem, model: &Model) -> Result<bool, AllocError>
    requires model { IsModel (quiver_of problem.now.parts.quiver) model.now }
    requires fitting { IsFitting problem.now model.now }
    ensures { IfOk result (λ refuted. IsTrue refuted ↔ Refutes problem.now model.now) }
{
    match check_model(alloc, problem, model) {
        Ok(()) => Ok(true),
        Err(ModelRefusal::Memory(failed)) => Err(failed),
        Err(_) => Ok(false),
    }
}

// The assumptions are zero in the model and its claim isn't, or the first test that fails is returned.
fn check_model(alloc: Global, problem: &Problem, model: &Model) -> Result<(), ModelRefusal>
    requires model { IsModel (quiver_of problem.now.parts.quiver) model.now }
    requires fitting { IsFitting problem.now model.now }
    ensures confirmed { OnOk result (Refutes problem.now model.now) }
    ensures refused { IfErr result (RefusesModel problem.now model.now) }
    ensures complete { Refutes problem.now model.now → IfErr result IsMemory }
{
    let representation = representation_of(alloc, &problem.parts.quiver, model)?;
    check_values(alloc, problem, model, &representation)
}

// The same, by the representation of the model.
fn check_values(
    alloc: Global,
    problem: &Problem,
    model: &Model,
    representation: &Representation<Matrices>,
) -> Result<(), ModelRefusal>
    requires model { IsModel (quiver_of problem.now.parts.quiver) model.now }
    requires fitting { IsFitting problem.now model.now }
    requires lists { AreOfModel (quiver_of problem.now.parts.quiver) model.now representation.now.objects representation.now.arrows }
    ensures confirmed { OnOk result (Refutes problem.now model.now) }
    ensures refused { IfErr result (RefusesModel problem.now model.now) }
    ensures complete { Refutes problem.now model.now → IfErr result IsMemory }
{
    if let Some(assumption) = first_not_zero(alloc, problem, model, representation)? {
        return Err(ModelRefusal::NotZero { assumption });
    }
    if is_claim_zero(alloc, problem, model, representation)? {
        return Err(ModelRefusal::ClaimZero);
    }
    Ok(())
}

// Whether the claim that the model names is zero.
fn is_claim_zero(
    alloc: Global,
    problem: &Problem,
    model: &Model,
    representation: &Representation<Matrices>,
) -> Result<bool, AllocError>
    requires model { IsModel (quiver_of problem.now.parts.quiver) model.now }
    requires maps { HaveMatrices (quiver_of problem.now.parts.quiver) model.now (letters (quiver_of problem.now.parts.quiver)) }
    requires lists { AreOfModel (quiver_of problem.now.parts.quiver) model.now representation.now.objects representation.now.arrows }
    requires claim { IsClaimNumber problem.now model.now.claim }
    ensures { IfOk result (λ zero. IsTrue zero ↔ IsZeroIn problem.now model.now (claim_polynomial problem.now model.now.claim)) }
{
    let parts = &problem.parts;
    let place = model.claim as usize - 1;
    let (claim, sig) = (parts.claims.at(place), *parts.claim_sigs.at(place));
    is_zero(alloc, &parts.quiver, model, representation, claim, sig)
}

// The number of the first assumption, counted from 1, that isn't zero.
fn first_not_zero(
    alloc: Global,
    problem: &Problem,
    model: &Model,
    representation: &Representation<Matrices>,
) -> Result<Option<u32>, AllocError>
    requires model { IsModel (quiver_of problem.now.parts.quiver) model.now }
    requires maps { HaveMatrices (quiver_of problem.now.parts.quiver) model.now (letters (quiver_of problem.now.parts.quiver)) }
    requires lists { AreOfModel (quiver_of problem.now.parts.quiver) model.now representation.now.objects representation.now.arrows }
    ensures zero { IfOk result (λ first. IfNone first (AllByRecursion (IsZeroIn problem.now model.now) (assumptions_of problem.now))) }
    ensures not_zero { IfOk result (λ first. IfSome first (IsFirstNotZero problem.now model.now)) }
{
    let parts = &problem.parts;
    for (place, assumption) in parts.assumptions.as_slice().iter().enumerate() {
        let sig = *parts.sigs.at(place);
        if !is_zero(alloc, &parts.quiver, model, representation, assumption, sig)? {
            return Ok(Some(place as u32 + 1));
        }
    }
    Ok(None)
}
