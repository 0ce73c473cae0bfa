//! What `explain` reads, judges and prints: certificates, each as a chain of equations or refused.
ghost use Rattle.std.specs.Prelude.{OnOk};
ghost use Rattle.certificate_text.specs.Evidence.{IsCheckableEvidence};
ghost use Rattle.command_shape.specs.Judged.{Puts};
ghost use Rattle.evidence_commands.specs.Explain.{chains, fault_text, HasFaultLetters, HasRefusalLetters};

use crate::cause::{put_cause, put_overflow, put_past};
use crate::chain::write_chain;
use crate::kind::EvidenceKind;
use adjoint_rules::Problem;
use block_text::{CertFault, put, put_labelled};
use certificate_text::read_evidence;
use cofactor_trace::Evidence;
use equation_chain::{ChainFault, LETTER_LIMIT};
use lists::Listing;
use quiver::Quiver;
use std::alloc::{AllocError, Global};

/// Certificates of both formats, each as the chain of its steps. A block with lemmas is refused for them, with no fault of a chain, and a
/// certificate that has no chain for its first fault.
#[derive(Clone, Copy)]
pub(crate) struct Chains;

impl EvidenceKind for Chains {
    type Block = Evidence;

    type Refusal = Option<ChainFault>;

    ghost kind = { chains };

    ghost is_readable = { IsCheckableEvidence };

    ghost has_letters = { HasRefusalLetters };

    fn read(
        &self,
        alloc: Global,
        text: &[u8],
        quiver: &Quiver,
    ) -> Result<Listing<Evidence>, CertFault> {
        read_evidence(alloc, text, quiver)
    }

    fn judge(
        &self,
        alloc: Global,
        problem: &Problem,
        block: &Evidence,
    ) -> Result<Vec<u8>, Option<ChainFault>> {
        match block {
            Evidence::Lemmas(_) => Err(None),
            Evidence::Plain(certificate) => match write_chain(alloc, problem, certificate) {
                Ok(text) => Ok(text),
                Err(fault) => Err(Some(fault)),
            },
        }
    }

    fn put_cause(
        &self,
        out: &mut Vec<u8>,
        quiver: &Quiver,
        refusal: &Option<ChainFault>,
    ) -> Result<(), AllocError> {
        match refusal {
            None => put(out, "E1"),
            Some(fault) => put_fault(out, quiver, fault),
        }
    }
}

// Appends the text of the first fault of a certificate.
fn put_fault(out: &mut Vec<u8>, quiver: &Quiver, fault: &ChainFault) -> Result<(), AllocError>
    requires { HasFaultLetters quiver.now fault.now }
    ensures { OnOk result (Puts (fault_text quiver.now fault.now) out.old.items out.new.items) }
{
    match fault {
        ChainFault::Refused(refusal) => put_cause(out, quiver, refusal),
        ChainFault::Overflow { row, overflow } => put_overflow(out, "E2 row ", *row, overflow),
        ChainFault::Size { row } => put_labelled(out, "E3 row ", u128::from(*row)),
        ChainFault::Long { row } => put_past(out, "E4 row ", *row, LETTER_LIMIT),
        ChainFault::Memory(_) => Err(AllocError),
    }
}
