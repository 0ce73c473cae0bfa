//! What is made of the lines of a certificate.

ghost use Rattle.std.specs.Prelude.{◌≡◌, []};
ghost use Rattle.lists.specs.Stop.{Gives};
ghost use Rattle.block_text.specs.Tokens.{tokens_of};
ghost use Rattle.certificate_text.specs.Reading.{lemmas_headed, begun, scaled, lemma_row, in_rows, next, certificate_steps};
ghost use Rattle.certificate_text.specs.declared.place.Stage.TheVariants as stage;

use crate::line::{denominator_of, goal_scale_of, is_lemmas_head, is_plain_head, lemma_scale_of};
use crate::place::{NO_ROWS, Opened, Size, Stage};
use crate::row::{grown, lemma_row_of, row_of};
use block_text::{BlockKind, Flaw, begins, claim_of};
use cofactor_trace::{Certificate, Evidence, Format, Lemma};
use lists::{Listing, Stop};
use quiver::Quiver;
use std::alloc::{AllocError, Global};

/// Certificates of this format and of the earlier ones, over the letters of a quiver.
#[derive(Clone, Copy)]
pub struct Certificates<'q> {
    pub most: Format,
    pub quiver: &'q Quiver,
}

// One of format 2 begins, where that format is read.
fn lemmas_headed(most: Format) -> Option<Stage>
    ensures { result ≡ lemmas_headed most }
{
    match most {
        Format::Plain => None,
        Format::Lemmas => Some(Stage::Headed {
            form: Format::Lemmas,
        }),
    }
}

// The stage after the denominator.
fn begun(alloc: Global, form: Format, claim: u32, denominator: i128) -> Stage
    ensures { result ≡ begun form claim denominator }
{
    match form {
        Format::Plain => Stage::Rows {
            certificate: Certificate {
                claim,
                denominator,
                rows: Listing::new(alloc),
            },
            size: NO_ROWS,
        },
        Format::Lemmas => Stage::Opened {
            opened: Opened {
                claim,
                denominator,
                lemmas: Listing::new(alloc),
                size: NO_ROWS,
            },
        },
    }
}

// The denominator after the claim.
fn divided(alloc: Global, form: Format, claim: u32, line: &[u8]) -> Result<Stage, Flaw>
    ensures { result ≡ next [] (stage.Claimed form claim) (tokens_of line.now) }
{
    let denominator = denominator_of(line)?;
    Ok(begun(alloc, form, claim, denominator))
}

// One more row of a certificate without lemmas, with the size.
fn push_row(
    alloc: Global,
    quiver: &Quiver,
    certificate: &mut Certificate,
    size: Size,
    line: &[u8],
) -> Result<Size, Stop<Flaw>>
    ensures { Gives (λ size. stage.Rows certificate.new size) result (in_rows quiver.now certificate.old size (tokens_of line.now)) }
{
    let row = row_of(alloc, quiver, line)?;
    let size = grown(size, &row.left, &row.right)?;
    certificate.rows.push(row)?;
    Ok(size)
}

// A row of a certificate without lemmas.
fn in_rows(
    alloc: Global,
    quiver: &Quiver,
    mut certificate: Certificate,
    size: Size,
    line: &[u8],
) -> Result<Stage, Stop<Flaw>>
    ensures { Gives (λ s. s) result (in_rows quiver.now certificate size (tokens_of line.now)) }
{
    let size = push_row(alloc, quiver, &mut certificate, size, line)?;
    Ok(Stage::Rows { certificate, size })
}

// The rows of the next lemma, or of the goal, begin.
fn scaled(alloc: Global, opened: Opened, line: &[u8]) -> Result<Stage, Flaw>
    ensures { result ≡ scaled opened (tokens_of line.now) }
{
    let is_goal = begins("goal", line);
    let scale = if is_goal {
        goal_scale_of(line)
    } else {
        lemma_scale_of(opened.lemmas.len(), line)
    };
    let lemma = Lemma {
        scale: scale?,
        rows: Listing::new(alloc),
    };
    Ok(if is_goal {
        Stage::Goal {
            opened,
            goal: lemma,
        }
    } else {
        Stage::Lemma { opened, lemma }
    })
}

/// One more row of a lemma or of the goal, with the size of the block. For a line that doesn't fit, or that exceeds a bound,
/// the first flaw is returned.
pub fn push_lemma_row(
    alloc: Global,
    quiver: &Quiver,
    size: Size,
    lemma: &mut Lemma,
    line: &[u8],
) -> Result<Size, Stop<Flaw>>
    ensures { Gives (λ larger. (larger, lemma.new)) result (lemma_row quiver.now size lemma.old (tokens_of line.now)) }
{
    let row = lemma_row_of(alloc, quiver, line)?;
    let size = grown(size, &row.left, &row.right)?;
    lemma.rows.push(row)?;
    Ok(size)
}

impl<'q> BlockKind for Certificates<'q> {
    type Begun = Stage;

    type Value = Evidence;

    ghost steps = { λ kind. certificate_steps kind.most kind.quiver.now };

    fn others(&self) -> &'static [&'static str] {
        &["model", "basis"]
    }

    fn begin(&self, _alloc: Global, line: &[u8]) -> Option<Stage> {
        if is_plain_head(line) {
            Some(Stage::Headed {
                form: Format::Plain,
            })
        } else if is_lemmas_head(line) {
            lemmas_headed(self.most)
        } else {
            None
        }
    }

    fn next(&self, alloc: Global, stage: Stage, line: &[u8]) -> Result<Stage, Stop<Flaw>> {
        let quiver = self.quiver;
        match stage {
            Stage::Headed { form } => {
                let claim = claim_of(line)?;
                Ok(Stage::Claimed { form, claim })
            }
            Stage::Claimed { form, claim } => Ok(divided(alloc, form, claim, line)?),
            Stage::Rows { certificate, size } => { in_rows(alloc, quiver, certificate, size, line) }
            Stage::Opened { opened } => Ok(scaled(alloc, opened, line)?),
            Stage::Lemma { opened, lemma } => {
                let (mut opened, mut lemma) = (opened, lemma);
                if begins("row", line) {
                    opened.size = push_lemma_row(alloc, quiver, opened.size, &mut lemma, line)?;
                    return Ok(Stage::Lemma { opened, lemma });
                }
                opened.lemmas.push(lemma)?;
                Ok(scaled(alloc, opened, line)?)
            }
            Stage::Goal { opened, goal } => {
                let (mut opened, mut goal) = (opened, goal);
                opened.size = push_lemma_row(alloc, quiver, opened.size, &mut goal, line)?;
                Ok(Stage::Goal { opened, goal })
            }
        }
    }

    fn finish(&self, _alloc: Global, stage: Stage) -> Result<Option<Evidence>, AllocError> {
        match stage {
            Stage::Rows { certificate, .. } => Ok(Some(Evidence::Plain(certificate))),
            Stage::Goal { opened, goal } => { Ok(Some(Evidence::Lemmas(opened.with_goal(goal)))) }
            _ => Ok(None),
        }
    }
}
