//! The stages from a tree to its problem: names, signatures, polynomials, and at least one claim.

ghost use Rattle.std.specs.Prelude.{◌≡◌, None, OnOk, IfOk, IfErr};
ghost use Rattle.abbreviations.specs.Written.{assumptions_of, claims_of};
ghost use Rattle.adjoint_rules.specs.Problem.{IsPosed, polynomials};
ghost use Rattle.signature_typing.specs.First.{first_among};
ghost use Rattle.signature_typing.specs.Fault.{Explains};
ghost use Rattle.signature_typing.specs.Named.{AreNamed};
ghost use Rattle.signature_typing.specs.Typing.{ArePartsOf, IsProblemOf, equation_fault, fault_of, polynomials_of, signatures_of};
ghost use Rattle.signature_typing.specs.Typing.{wrong_claims, wrong_polynomial, wrong_signature};

use crate::TypeFault;
use crate::fault::no_claim;
use crate::polynomials::Polynomials;
use crate::signatures::Signatures;
use crate::stage::{Stated, all_stated};
use adjoint_rules::{Parts, Problem, close_problem};
use nc_polynomial::Poly;
use quiver::{Quiver, Sig};
use statement_names::read_names;
use statement_syntax::{Statement, Tree};
use std::alloc::Global;

/// The problem of the tree, or its first fault: names, literals and counts come first, then signatures, then
/// arithmetic, and then that there is no claim. `Memory` where memory is short.
pub fn elaborate(alloc: Global, tree: &Tree) -> Result<Problem, TypeFault>
    ensures found { IfOk result (IsProblemOf tree.now.statements) }
    ensures refused { IfErr result (Explains (fault_of tree.now.statements)) }
{
    let parts = parts_of(alloc, tree)?;
    Ok(close_problem(alloc, parts)?)
}

// The parts of the problem. Each stage goes over all statements before the next one begins.
fn parts_of(alloc: Global, tree: &Tree) -> Result<Parts, TypeFault>
    ensures parts { IfOk result (ArePartsOf tree.now.statements) }
    ensures posed { IfOk result IsPosed }
    ensures fits { OnOk result (fault_of tree.now.statements ≡ None) }
    ensures refused { IfErr result (Explains (fault_of tree.now.statements)) }
{
    let names = read_names(alloc, tree)?;
    let (signatures, polynomials) = typed(alloc, &names.quiver, tree.statements.as_slice())?;
    Ok(Parts {
        quiver: names.quiver,
        order: names.order,
        starred: names.starred,
        marked: names.marked,
        assumptions: polynomials.assumptions,
        sigs: signatures.assumptions,
        claims: polynomials.claims,
        claim_sigs: signatures.claims,
        shapes: names.shapes,
        solved: names.solved,
    })
}

// The signatures and the polynomials of all equations, of which at least one is a claim.
#[tactic(auto, using(crate::proofs::Posed::ends))]
fn typed(
    alloc: Global,
    quiver: &Quiver,
    statements: &[Statement],
) -> Result<(Stated<Sig>, Stated<Poly>), TypeFault>
    requires { AreNamed quiver.now statements.now }
    ensures signatures { IfOk result (λ both. both.0.assumptions ≡ signatures_of quiver.now (assumptions_of quiver.now statements.now)) }
    ensures claim_signatures { IfOk result (λ both. both.0.claims ≡ signatures_of quiver.now (claims_of statements.now)) }
    ensures assumptions { IfOk result (λ both. polynomials both.1.assumptions ≡ polynomials_of quiver.now (assumptions_of quiver.now statements.now)) }
    ensures claims { IfOk result (λ both. polynomials both.1.claims ≡ polynomials_of quiver.now (claims_of statements.now)) }
    ensures typed { OnOk result (first_among (wrong_signature quiver.now) statements.now ≡ None) }
    ensures fits { OnOk result (first_among (wrong_polynomial quiver.now) statements.now ≡ None) }
    ensures some { OnOk result (wrong_claims (claims_of statements.now) ≡ None) }
    ensures refused { IfErr result (Explains (equation_fault quiver.now statements.now)) }
{
    let signatures = all_stated(alloc, &Signatures, quiver, statements)?;
    let polynomials = all_stated(alloc, &Polynomials, quiver, statements)?;
    if polynomials.claims.len() == 0 {
        return Err(no_claim());
    }
    Ok((signatures, polynomials))
}
