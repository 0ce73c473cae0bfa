//! What `check` reads, judges and prints: certificates, each accepted or refused.
ghost use Rattle.certificate_text.specs.Evidence.{IsCheckableEvidence};
ghost use Rattle.evidence_commands.specs.Causes.{HasLetters};
ghost use Rattle.evidence_commands.specs.Check.{certificates};

use crate::cause::{put_cause, put_claim};
use crate::kind::EvidenceKind;
use adjoint_rules::Problem;
use block_text::CertFault;
use certificate_text::read_evidence;
use cofactor_checker::{Refusal, check_evidence};
use cofactor_trace::Evidence;
use lists::Listing;
use quiver::Quiver;
use std::alloc::{AllocError, Global};

/// Certificates of both formats.
#[derive(Clone, Copy)]
pub(crate) struct Certificates;

impl EvidenceKind for Certificates {
    type Block = Evidence;

    type Refusal = Refusal;

    ghost kind = { certificates };

    ghost is_readable = { IsCheckableEvidence };

    ghost has_letters = { HasLetters };

    fn read(
        &self,
        alloc: Global,
        text: &[u8],
        quiver: &Quiver,
    ) -> Result<Listing<Evidence>, CertFault> {
        read_evidence(alloc, text, quiver)
    }

    fn judge(
        &self,
        alloc: Global,
        problem: &Problem,
        block: &Evidence,
    ) -> Result<Vec<u8>, Refusal> {
        let accepted = check_evidence(alloc, problem, block)?;
        let mut text = Vec::new(alloc);
        put_claim(&mut text, &accepted)?;
        Ok(text)
    }

    fn put_cause(
        &self,
        out: &mut Vec<u8>,
        quiver: &Quiver,
        refusal: &Refusal,
    ) -> Result<(), AllocError> {
        put_cause(out, quiver, refusal)
    }
}
