//! The laws of problems and of adjoints. They have nothing to run.

ghost use Rattle.std.specs.List.{AllByRecursion};
ghost use Rattle.definitions.specs.Quiver.{IsQuiver};
ghost use Rattle.definitions.specs.Soundness.{HasSignature};
ghost use Rattle.quiver.specs.Declarations.{quiver_of};
ghost use Rattle.adjoint_rules.specs.Laws.{AdjointsAreAnInvolution};
ghost use Rattle.adjoint_rules.specs.Problem.{polynomials, GeneratorsAreUnique};

use crate::Problem;

/// The generators and the claims of a problem are typed over its quiver. It has nothing to run.
pub fn problem_is_typed(problem: &Problem)
    ensures quiver { IsQuiver (quiver_of problem.now.parts.quiver) }
    ensures generators { AllByRecursion (HasSignature (quiver_of problem.now.parts.quiver)) (polynomials problem.now.generators) }
    ensures claims { AllByRecursion (HasSignature (quiver_of problem.now.parts.quiver)) (polynomials problem.now.parts.claims) }
{}

/// The parts of a statement determine its generators. It has nothing to run.
#[tactic(auto, using(crate::proofs::Generators::generators_are_unique))]
pub fn generators_are_unique()
    ensures { GeneratorsAreUnique }
{}

/// Adjoints are an involution on words and polynomials: twice the adjoint is the same again, products are
/// reversed, and sums are kept. It has nothing to run.
pub fn adjoints_are_an_involution()
    ensures { AdjointsAreAnInvolution }
{}
