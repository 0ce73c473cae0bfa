//! What `cancel` reads, judges and prints: proofs that cancel letters, each accepted or refused.
ghost use Rattle.std.specs.Prelude.{◌≡◌, ◌++◌, All, IfOk, OnOk};
ghost use Rattle.cancel_rules.specs.Acceptance.{IsLetterOf, IsReadableCancellation};
ghost use Rattle.evidence_commands.specs.Causes.{claim_text};
ghost use Rattle.evidence_commands.specs.Cancel.{cancellations, HasRefusalLetters};
ghost use Rattle.evidence_commands.specs.CalledLetters.{name_text, names_text, called_text, letters_text};

use crate::cause::{put_cause, put_claim};
use crate::kind::EvidenceKind;
use adjoint_rules::Problem;
use block_text::{CertFault, put, put_labelled, put_letter};
use cancel_rules::{CancelRefusal, Cancellation, check_cancellation};
use cancellation_text::read_cancellations;
use cofactor_checker::Accepted;
use lists::Listing;
use quiver::Quiver;
use std::alloc::{AllocError, Global};
use word_core::Letter;

/// Proofs that cancel letters which they call monic or epic.
#[derive(Clone, Copy)]
pub(crate) struct Cancellations;

impl EvidenceKind for Cancellations {
    type Block = Cancellation;

    type Refusal = CancelRefusal;

    ghost kind = { cancellations };

    ghost is_readable = { IsReadableCancellation };

    ghost has_letters = { HasRefusalLetters };

    fn read(
        &self,
        alloc: Global,
        text: &[u8],
        quiver: &Quiver,
    ) -> Result<Listing<Cancellation>, CertFault> {
        read_cancellations(alloc, text, quiver)
    }

    fn judge(
        &self,
        alloc: Global,
        problem: &Problem,
        block: &Cancellation,
    ) -> Result<Vec<u8>, CancelRefusal> {
        let accepted = check_cancellation(alloc, problem, block)?;
        Ok(accepted_text(alloc, &problem.parts.quiver, block, &accepted)?)
    }

    fn put_cause(
        &self,
        out: &mut Vec<u8>,
        quiver: &Quiver,
        refusal: &CancelRefusal,
    ) -> Result<(), AllocError> {
        match refusal {
            CancelRefusal::Common(refusal) => put_cause(out, quiver, refusal),
            CancelRefusal::NoSuchItem { item } => put_labelled(out, "X1 item ", u128::from(*item)),
            CancelRefusal::NotDeclared { item } => put_labelled(out, "X2 item ", u128::from(*item)),
            CancelRefusal::NotTyped { item } => put_labelled(out, "X3 item ", u128::from(*item)),
            CancelRefusal::NotStripped { item } => put_labelled(out, "X4 item ", u128::from(*item)),
        }
    }
}

// The claim, the denominator, and the letters that the proof calls monic and epic.
fn accepted_text(
    alloc: Global,
    quiver: &Quiver,
    proof: &Cancellation,
    accepted: &Accepted,
) -> Result<Vec<u8>, AllocError>
    requires { IsReadableCancellation quiver.now proof.now }
    ensures { let p = proof.now in let a = accepted.now in
        IfOk result (λ text. text.items ≡ claim_text a.claim a.denominator ++ letters_text quiver.now p.monic p.epic) }
{
    let mut text = Vec::new(alloc);
    put_claim(&mut text, accepted)?;
    put_called(&mut text, quiver, " monic", proof.monic.as_slice())?;
    put_called(&mut text, quiver, " epic", proof.epic.as_slice())?;
    Ok(text)
}

// Appends the word and the letters, where there are letters.
fn put_called(
    out: &mut Vec<u8>,
    quiver: &Quiver,
    word: &str,
    letters: &[Letter],
) -> Result<(), AllocError>
    requires { All (IsLetterOf quiver.now) letters.now }
    ensures { OnOk result (out.new.items ≡ out.old.items ++ called_text quiver.now word.now letters.now) }
{
    if letters.is_empty() {
        return Ok(());
    }
    put(out, word)?;
    put_names(out, quiver, letters)
}

// Appends the names of the letters, each after a blank.
fn put_names(out: &mut Vec<u8>, quiver: &Quiver, letters: &[Letter]) -> Result<(), AllocError>
    requires { All (IsLetterOf quiver.now) letters.now }
    ensures { OnOk result (out.new.items ≡ out.old.items ++ names_text quiver.now letters.now) }
{
    for letter in letters {
        put_name(out, quiver, *letter)?;
    }
    Ok(())
}

// Appends a blank and the name of the letter.
fn put_name(out: &mut Vec<u8>, quiver: &Quiver, letter: Letter) -> Result<(), AllocError>
    requires { IsLetterOf quiver.now letter }
    ensures { OnOk result (out.new.items ≡ out.old.items ++ name_text quiver.now letter) }
{
    put(out, " ")?;
    put_letter(out, quiver, letter)
}
