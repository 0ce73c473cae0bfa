//! What `confirm` reads, judges and prints: bases, each found closed or refused.
ghost use Rattle.std.specs.Prelude.{◌≡◌, ◌++◌, OnOk, codes};
ghost use Rattle.adjoint_rules.specs.Problem.{polynomials};
ghost use Rattle.quiver.specs.Over.{IsPolyOver};
ghost use Rattle.closed_checker.specs.Rests.{rules_of};
ghost use Rattle.closed_checker.specs.Closed.{IsReadableBasis, IsClosedBasis};
ghost use Rattle.closed_checker.specs.Laws.{ClosedMeans};
ghost use Rattle.normal_category.specs.Tests.{is_sharp};
ghost use Rattle.report_text.specs.Heads.{cause_text};
ghost use Rattle.evidence_commands.specs.Confirm.{bases, sharp_ending, kind_text, ambiguity_text, part_text, left_text, stop_text};
ghost use Rattle.evidence_commands.specs.Confirm.{got_text, HasRefusalLetters};

use crate::kind::EvidenceKind;
use adjoint_rules::{Basis, Problem};
use ambiguities::{Ambiguity, Kind};
use block_lines::read_bases;
use block_text::{CertFault, put, put_labelled, put_poly};
use closed_checker::{ClosedRefusal, Part, confirm_closed};
use cofactor_trace::Cause;
use lists::Listing;
use nc_polynomial::Poly;
use normal_category::normal_forms;
use quiver::Quiver;
use report_text::put_cause;
use rule_reduce::Rules;
use std::alloc::{AllocError, Global};
use word_orders::AnyOrder;

/// Bases with what they leave of a claim.
#[derive(Clone, Copy)]
pub(crate) struct Bases;

impl EvidenceKind for Bases {
    type Block = Basis;

    type Refusal = ClosedRefusal;

    ghost kind = { bases };

    ghost is_readable = { IsReadableBasis };

    ghost has_letters = { HasRefusalLetters };

    fn read(
        &self,
        alloc: Global,
        text: &[u8],
        quiver: &Quiver,
    ) -> Result<Listing<Basis>, CertFault> {
        read_bases(alloc, text, quiver)
    }

    fn judge(
        &self,
        alloc: Global,
        problem: &Problem,
        block: &Basis,
    ) -> Result<Vec<u8>, ClosedRefusal> {
        let rules = confirm_closed(alloc, problem, block)?;
        let mut text = Vec::new(alloc);
        put_labelled(&mut text, "closed claim ", u128::from(block.claim))?;
        put_ending(&mut text, is_sharp(problem, block, &rules))?;
        Ok(text)
    }

    fn put_cause(
        &self,
        out: &mut Vec<u8>,
        quiver: &Quiver,
        refusal: &ClosedRefusal,
    ) -> Result<(), AllocError> {
        match refusal {
            ClosedRefusal::NoSuchClaim => put(out, "B1"),
            ClosedRefusal::NotRule { rule } => put_labelled(out, "B2 rule ", u128::from(*rule)),
            ClosedRefusal::GeneratorLeft { generator, rest } => {
                put_left(out, quiver, "B3 ", Part::Generator(*generator), rest)
            }
            ClosedRefusal::AmbiguityLeft { ambiguity, rest } => {
                put_left(out, quiver, "B4 ", Part::Ambiguity(*ambiguity), rest)
            }
            ClosedRefusal::OtherRest { got } => put_got(out, quiver, got),
            ClosedRefusal::ZeroRest => put(out, "B6"),
            ClosedRefusal::Stopped { part, cause } => put_stop(out, *part, cause),
            ClosedRefusal::Memory(_) => Err(AllocError),
        }
    }
}

// Whether the rules of the closed basis make a category of normal forms.
fn is_sharp(problem: &Problem, basis: &Basis, rules: &Rules<AnyOrder>) -> bool
    requires closed { IsClosedBasis problem.now basis.now }
    requires means { ClosedMeans problem.now basis.now }
    requires rules { rules.now.rules ≡ rules_of problem.now basis.now }
    ensures { result ≡ is_sharp problem.now.parts (polynomials basis.now.rules) }
{
    normal_forms(problem, rules, basis.claim).is_ok()
}

// Appends the end of the line on a basis: ` sharp`, or nothing.
fn put_ending(out: &mut Vec<u8>, is_sharp: bool) -> Result<(), AllocError>
    ensures { OnOk result (out.new.items ≡ out.old.items ++ sharp_ending is_sharp) }
{
    if is_sharp { put(out, " sharp") } else { Ok(()) }
}

// Appends the code of the test, the part, and what is left of it.
fn put_left(
    out: &mut Vec<u8>,
    quiver: &Quiver,
    code: &str,
    part: Part,
    rest: &Poly,
) -> Result<(), AllocError>
    requires { IsPolyOver quiver.now rest.now }
    ensures { OnOk result (out.new.items ≡ out.old.items ++ left_text quiver.now code.now part rest.now) }
{
    put(out, code)?;
    put_part(out, part)?;
    put(out, " rest ")?;
    put_poly(out, quiver, rest)
}

// Appends what is left of the claim.
fn put_got(out: &mut Vec<u8>, quiver: &Quiver, got: &Poly) -> Result<(), AllocError>
    requires { IsPolyOver quiver.now got.now }
    ensures { OnOk result (out.new.items ≡ out.old.items ++ got_text quiver.now got.now) }
{
    put(out, "B5 got ")?;
    put_poly(out, quiver, got)
}

// Appends the part that has a fault, and which.
fn put_stop(out: &mut Vec<u8>, part: Part, cause: &Cause) -> Result<(), AllocError>
    ensures { OnOk result (out.new.items ≡ out.old.items ++ stop_text part cause.now) }
{
    put(out, "B7 ")?;
    put_part(out, part)?;
    put(out, " ")?;
    put_cause(out, cause)
}

fn put_part(out: &mut Vec<u8>, part: Part) -> Result<(), AllocError>
    ensures { OnOk result (out.new.items ≡ out.old.items ++ part_text part) }
{
    match part {
        Part::Generator(number) => put_labelled(out, "generator ", u128::from(number)),
        Part::Ambiguity(which) => put_ambiguity(out, &which),
        Part::Claim => put(out, "claim"),
    }
}

fn put_ambiguity(out: &mut Vec<u8>, which: &Ambiguity) -> Result<(), AllocError>
    ensures { OnOk result (out.new.items ≡ out.old.items ++ ambiguity_text which.now) }
{
    put_kind(out, which.kind)?;
    put_labelled(out, " ", u128::from(which.i))?;
    put_labelled(out, " ", u128::from(which.j))?;
    put_labelled(out, " ", u128::from(which.place))
}

fn put_kind(out: &mut Vec<u8>, kind: Kind) -> Result<(), AllocError>
    ensures { OnOk result (out.new.items ≡ out.old.items ++ kind_text kind) }
{
    match kind {
        Kind::Overlap => put(out, "overlap"),
        Kind::Inclusion => put(out, "inclusion"),
    }
}
