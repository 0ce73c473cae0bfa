//! What is made of the lines of a proof that cancels letters.

ghost use Rattle.std.specs.Prelude.{◌≡◌, [], ◌+◌, length};
ghost use Rattle.lists.specs.Stop.{Gives};
ghost use Rattle.block_text.specs.Tokens.{tokens_of};
ghost use Rattle.cancellation_text.specs.Reading.{is_called, one_more, called, goal_begun, lemma_begun, cancelled, cancel_tokens, item_or_goal};
ghost use Rattle.cancellation_text.specs.Reading.{calling, called_tokens, proof_of, next, cancellation_steps};
ghost use Rattle.cancellation_text.specs.Views.{called_now};
ghost use Rattle.cancellation_text.specs.declared.place.Stage.TheVariants as stage;

use crate::line::{CalledTokens, called_tokens, cancel_of, cancel_tokens};
use crate::place::{Opened, Stage};
use block_text::{BlockKind, Flaw, begins, claim_of, is_pair, letter_of};
use cancel_rules::{Cancellation, Item, Side};
use certificate_text::{NO_ROWS, denominator_of, goal_scale_of, lemma_scale_of, push_lemma_row};
use cofactor_trace::Lemma;
use lists::{Listing, Stop};
use quiver::Quiver;
use std::alloc::{AllocError, Global};
use word_core::Letter;

/// Proofs that cancel letters, over the letters of a quiver.
#[derive(Clone, Copy)]
pub struct Cancellations<'q> {
    pub quiver: &'q Quiver,
}

// The denominator after the claim.
fn divided(alloc: Global, claim: u32, line: &[u8]) -> Result<Stage, Flaw>
    ensures { result ≡ next [] (stage.Claimed claim) (tokens_of line.now) }
{
    let denominator = denominator_of(line)?;
    Ok(Stage::Called {
        opened: Opened {
            claim,
            denominator,
            monic: Listing::new(alloc),
            epic: Listing::new(alloc),
            items: Listing::new(alloc),
            size: NO_ROWS,
        },
    })
}

fn is_called(letter: Letter, letters: &[Letter]) -> bool
    ensures { result ≡ is_called letter letters.now }
{
    letters.iter().any(|other| other.0 == letter.0)
}

// The letters with one more, which is none of them.
fn push_letter(letters: &mut Listing<Letter>, letter: Letter) -> Result<(), Stop<Flaw>>
    ensures { Gives (λ _. letters.new) result (one_more letters.old letter) }
{
    if is_called(letter, letters.as_slice()) {
        return Err(Stop::Fault(Flaw::BadLine));
    }
    letters.push(letter)?;
    Ok(())
}

// A letter that is called monic or epic, and was not before.
fn called(
    quiver: &Quiver,
    mut opened: Opened,
    tokens: &CalledTokens<'_>,
) -> Result<Stage, Stop<Flaw>>
    ensures { Gives (λ s. s) result (called quiver.now opened (called_now tokens.now)) }
{
    let Some(letter) = letter_of(quiver, tokens.letter) else {
        return Err(Stop::Fault(Flaw::UnknownName));
    };
    match tokens.side {
        Side::Left => push_letter(&mut opened.monic, letter)?,
        Side::Right => push_letter(&mut opened.epic, letter)?,
    }
    Ok(Stage::Called { opened })
}

// The rows of the next lemma begin.
fn lemma_begun(alloc: Global, opened: Opened, line: &[u8]) -> Result<Stage, Flaw>
    ensures { result ≡ lemma_begun opened (tokens_of line.now) }
{
    let scale = lemma_scale_of(opened.items.len(), line)?;
    let rows = Listing::new(alloc);
    let lemma = Lemma { scale, rows };
    Ok(Stage::Lemma { opened, lemma })
}

// The rows of the goal begin.
fn goal_begun(alloc: Global, opened: Opened, line: &[u8]) -> Result<Stage, Flaw>
    ensures { result ≡ goal_begun opened (tokens_of line.now) }
{
    let scale = goal_scale_of(line)?;
    let rows = Listing::new(alloc);
    let goal = Lemma { scale, rows };
    Ok(Stage::Goal { opened, goal })
}

// A cancellation, or the next lemma.
fn item(
    alloc: Global,
    quiver: &Quiver,
    mut opened: Opened,
    line: &[u8],
) -> Result<Stage, Stop<Flaw>>
    ensures { Gives (λ s. s) result (cancelled quiver.now opened (tokens_of line.now) (cancel_tokens (length opened.items + 1) (tokens_of line.now))) }
{
    let before = opened.items.len();
    let Some(tokens) = cancel_tokens(before as u128 + 1, line) else {
        return Ok(lemma_begun(alloc, opened, line)?);
    };
    let cancel = cancel_of(quiver, before, &tokens)?;
    opened.items.push(cancel)?;
    Ok(Stage::Cancelled { opened })
}

// The next item, or the goal.
fn item_or_goal(
    alloc: Global,
    quiver: &Quiver,
    opened: Opened,
    line: &[u8],
) -> Result<Stage, Stop<Flaw>>
    ensures { Gives (λ s. s) result (item_or_goal quiver.now opened (tokens_of line.now)) }
{
    if begins("goal", line) {
        return Ok(goal_begun(alloc, opened, line)?);
    }
    item(alloc, quiver, opened, line)
}

// A letter that is called monic or epic, or what follows all of these.
fn calling(alloc: Global, quiver: &Quiver, opened: Opened, line: &[u8]) -> Result<Stage, Stop<Flaw>>
    ensures { Gives (λ s. s) result (calling quiver.now opened (tokens_of line.now) (called_tokens (tokens_of line.now))) }
{
    match called_tokens(line) {
        Some(tokens) => called(quiver, opened, &tokens),
        None => item_or_goal(alloc, quiver, opened, line),
    }
}

// The proof with this goal.
fn proof_of(opened: Opened, goal: Lemma) -> Cancellation
    ensures { result ≡ proof_of opened goal }
{
    Cancellation {
        claim: opened.claim,
        denominator: opened.denominator,
        monic: opened.monic,
        epic: opened.epic,
        items: opened.items,
        goal,
    }
}

impl<'q> BlockKind for Cancellations<'q> {
    type Begun = Stage;

    type Value = Cancellation;

    ghost steps = { λ kind. cancellation_steps kind.quiver.now };

    fn others(&self) -> &'static [&'static str] {
        &["certificate", "model", "basis"]
    }

    fn begin(&self, _alloc: Global, line: &[u8]) -> Option<Stage> {
        is_pair("cancellation", "1", line).then_some(Stage::Headed)
    }

    fn next(&self, alloc: Global, stage: Stage, line: &[u8]) -> Result<Stage, Stop<Flaw>> {
        let quiver = self.quiver;
        match stage {
            Stage::Headed => {
                let claim = claim_of(line)?;
                Ok(Stage::Claimed { claim })
            }
            Stage::Claimed { claim } => Ok(divided(alloc, claim, line)?),
            Stage::Called { opened } => calling(alloc, quiver, opened, line),
            Stage::Lemma { opened, lemma } => {
                let (mut opened, mut lemma) = (opened, lemma);
                if begins("row", line) {
                    opened.size = push_lemma_row(alloc, quiver, opened.size, &mut lemma, line)?;
                    return Ok(Stage::Lemma { opened, lemma });
                }
                opened.items.push(Item::Lemma(lemma))?;
                item_or_goal(alloc, quiver, opened, line)
            }
            Stage::Cancelled { opened } => item_or_goal(alloc, quiver, opened, line),
            Stage::Goal { opened, goal } => {
                let (mut opened, mut goal) = (opened, goal);
                opened.size = push_lemma_row(alloc, quiver, opened.size, &mut goal, line)?;
                Ok(Stage::Goal { opened, goal })
            }
        }
    }

    fn finish(&self, _alloc: Global, stage: Stage) -> Result<Option<Cancellation>, AllocError> {
        let Stage::Goal { opened, goal } = stage else {
            return Ok(None);
        };
        Ok(Some(proof_of(opened, goal)))
    }
}
