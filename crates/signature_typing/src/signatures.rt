//! The stage of signatures: the signature of each equation.

ghost use Rattle.std.specs.Prelude.{◌≡◌, IfOk};
ghost use Rattle.adjoint_rules.specs.Problem.{HasObjects};
ghost use Rattle.signature_typing.specs.Fault.{end_names, told_signature};
ghost use Rattle.signature_typing.specs.Typing.{signature_stage};
ghost use Rattle.signature_typing.specs.Named.{HasFaultObjects};

use crate::TypeFault;
use crate::fault::told;
use crate::stage::Stage;
use expressions::{SignatureFault, equation_signature};
use lists::Text;
use quiver::{Quiver, Sig};
use statement_syntax::Sum;
use statement_tokens::Spot;
use std::alloc::{AllocError, Global};

// The names of the source and the target.
fn end_names(alloc: Global, quiver: &Quiver, signature: Sig) -> Result<(Text, Text), AllocError>
    requires { HasObjects quiver.now signature }
    ensures { IfOk result (λ names. names ≡ end_names quiver.now signature) }
{
    let source = Text::from_str(alloc, quiver.object_name(signature.source))?;
    let target = Text::from_str(alloc, quiver.object_name(signature.target))?;
    Ok((source, target))
}

// The fault, with the names of the ends of its signatures.
fn signature_fault(
    alloc: Global,
    quiver: &Quiver,
    fault: SignatureFault,
) -> Result<TypeFault, AllocError>
    requires { HasFaultObjects quiver.now fault }
    ensures { IfOk result (λ told. told ≡ told_signature quiver.now fault) }
{
    let placed = fault.fault.at(fault.at);
    let Some((left, right)) = fault.sides else {
        return Ok(told(placed, None, None));
    };
    let left = end_names(alloc, quiver, left)?;
    let right = end_names(alloc, quiver, right)?;
    Ok(told(placed, Some(left), Some(right)))
}

/// The signatures of equations.
pub(crate) struct Signatures;

impl Stage for Signatures {
    type Value = Sig;

    type Said = Sig;

    ghost made = { λ _. signature_stage };

    ghost said = { λ _ signature. signature };

    #[tactic(auto, using(crate::proofs::Ends::fault_has_objects))]
    fn value_of(
        &self,
        alloc: Global,
        quiver: &Quiver,
        _at: Spot,
        left: &Sum,
        right: &Sum,
    ) -> Result<Sig, TypeFault> {
        let _declared = quiver.objects();
        match equation_signature(quiver, left, right) {
            Ok(signature) => Ok(signature),
            Err(fault) => Err(signature_fault(alloc, quiver, fault)?),
        }
    }
}
