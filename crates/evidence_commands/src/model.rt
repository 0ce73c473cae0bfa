//! What `model` reads, judges and prints: models, each confirmed or refused.
ghost use Rattle.std.specs.Prelude.{◌≡◌, ◌<◌, ◌++◌, OnOk};
ghost use Rattle.quiver.specs.Declarations.{letter_count};
ghost use Rattle.model_text.specs.Models.{IsModel};
ghost use Rattle.evidence_commands.specs.Model.{models, HasModelLetter, map_cause};

use crate::kind::EvidenceKind;
use adjoint_rules::Problem;
use block_text::{CertFault, put, put_labelled};
use lists::Listing;
use matrix_models::Model;
use model_checker::{ModelRefusal, confirm_model};
use model_text::read_models;
use quiver::Quiver;
use std::alloc::{AllocError, Global};
use word_core::Letter;

/// Models over the integers by a modulus.
#[derive(Clone, Copy)]
pub(crate) struct Models;

impl EvidenceKind for Models {
    type Block = Model;

    type Refusal = ModelRefusal;

    ghost kind = { models };

    ghost is_readable = { IsModel };

    ghost has_letters = { HasModelLetter };

    fn read(
        &self,
        alloc: Global,
        text: &[u8],
        quiver: &Quiver,
    ) -> Result<Listing<Model>, CertFault> {
        read_models(alloc, text, quiver)
    }

    fn judge(
        &self,
        alloc: Global,
        problem: &Problem,
        block: &Model,
    ) -> Result<Vec<u8>, ModelRefusal> {
        confirm_model(alloc, problem, block)?;
        let mut text = Vec::new(alloc);
        put_labelled(&mut text, "confirmed claim ", u128::from(block.claim))?;
        Ok(text)
    }

    fn put_cause(
        &self,
        out: &mut Vec<u8>,
        quiver: &Quiver,
        refusal: &ModelRefusal,
    ) -> Result<(), AllocError> {
        match refusal {
            ModelRefusal::NoSuchClaim => put(out, "M1"),
            ModelRefusal::MissingMap { letter } => put_map_cause(out, quiver, "M2", *letter),
            ModelRefusal::BadShape { letter } => put_map_cause(out, quiver, "M3", *letter),
            ModelRefusal::NotSymmetric { letter } => put_map_cause(out, quiver, "M6", *letter),
            ModelRefusal::NotZero { assumption } => {
                put_labelled(out, "M4 assumption ", u128::from(*assumption))
            }
            ModelRefusal::ClaimZero => put(out, "M5"),
            ModelRefusal::Memory(_) => Err(AllocError),
        }
    }
}

// A cause with the declared map that it is about.
fn put_map_cause(
    out: &mut Vec<u8>,
    quiver: &Quiver,
    code: &str,
    letter: Letter,
) -> Result<(), AllocError>
    requires { letter.0 < letter_count quiver.now }
    ensures { OnOk result (out.new.items ≡ out.old.items ++ map_cause quiver.now code.now letter.0) }
{
    put(out, code)?;
    put(out, " map ")?;
    put(out, quiver.letter_name(letter))
}
