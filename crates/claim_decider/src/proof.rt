//! Evidence of claims that are reduced to zero.
ghost use Rattle.std.specs.Prelude.{◌≡◌, length, IfOk};
ghost use Rattle.cofactor_trace.specs.Needed.{IsRecord, AreRecords, expansion_of};
ghost use Rattle.cofactor_trace.specs.Lemmas.{gathered_of};
ghost use Rattle.claim_decider.specs.Outcomes.{Expands, Gathers, IsProved, evidence_of_zero};

use crate::Outcome;
use crate::causes::{expansion_cause, gathering_cause, halted};
use cofactor_trace::{
    Certificate, Evidence, Format, Lemma, LemmaCertificate, Made, Place, expand, gather,
};
use lists::Listing;
use std::alloc::{AllocError, Global};

// The evidence of a claim without terms.
pub(crate) fn prove_zero(alloc: Global, format: Format, number: u32) -> Evidence
    ensures { result ≡ evidence_of_zero format number }
{
    match format {
        Format::Plain => Evidence::Plain(Certificate {
            claim: number,
            denominator: 1,
            rows: Listing::new(alloc),
        }),
        Format::Lemmas => Evidence::Lemmas(LemmaCertificate {
            claim: number,
            denominator: 1,
            lemmas: Listing::new(alloc),
            goal: Lemma {
                scale: 1,
                rows: Listing::new(alloc),
            },
        }),
    }
}

// By rows over generators alone.
fn prove_plain(
    alloc: Global,
    number: u32,
    place: Place,
    made: &[Made],
    claim: &Made,
) -> Result<Outcome, AllocError>
    requires records { AreRecords made.now }
    requires record { IsRecord (length made.now) claim.now }
    ensures { IfOk result (Expands number place (expansion_of made.now claim.now)) }
{
    match expand(alloc, made, claim) {
        Ok(cofactors) => Ok(Outcome::Derived(Evidence::Plain(Certificate {
            claim: number,
            denominator: cofactors.denominator,
            rows: cofactors.rows,
        }))),
        Err(fault) => Ok(halted(place, expansion_cause(fault)?)),
    }
}

// By rows over generators and lemmas.
fn prove_with_lemmas(
    alloc: Global,
    number: u32,
    place: Place,
    made: &[Made],
    claim: &Made,
) -> Result<Outcome, AllocError>
    requires records { AreRecords made.now }
    requires record { IsRecord (length made.now) claim.now }
    ensures { IfOk result (Gathers place (gathered_of number made.now claim.now)) }
{
    match gather(alloc, number, made, claim) {
        Ok(certificate) => Ok(Outcome::Derived(Evidence::Lemmas(certificate))),
        Err(fault) => Ok(halted(place, gathering_cause(fault)?)),
    }
}

// The outcome of a claim with this record, where `made` has those of the rules.
pub(crate) fn prove(
    alloc: Global,
    format: Format,
    number: u32,
    place: Place,
    made: &[Made],
    claim: &Made,
) -> Result<Outcome, AllocError>
    requires records { AreRecords made.now }
    requires record { IsRecord (length made.now) claim.now }
    ensures { IfOk result (IsProved format number place made.now claim.now) }
{
    match format {
        Format::Plain => prove_plain(alloc, number, place, made, claim),
        Format::Lemmas => prove_with_lemmas(alloc, number, place, made, claim),
    }
}
