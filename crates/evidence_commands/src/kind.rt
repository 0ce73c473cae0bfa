//! A kind of evidence: the blocks of a text are read, and judged one after another over the problem of a statement.
ghost use Rattle.std.specs.Prelude.{◌≤◌, List, IfOk, IfErr, OnOk, MatchResult, length};
ghost use Rattle.std.specs.List.{All};
ghost use Rattle.quiver.specs.Declarations.{Declaration};
ghost use Rattle.block_text.specs.Fault.{ExplainsBy};
ghost use Rattle.command_shape.specs.Blocks.{OverEvidence};
ghost use Rattle.command_shape.specs.FileWords.{evidence_limit};
ghost use Rattle.command_shape.specs.Judged.{Puts};
ghost use Rattle.command_shape.specs.Stop.{StopsBy, EndsAs};
ghost use Rattle.evidence_commands.specs.Kind.{Kind, Accepts, Refuses, AnswersText};

use adjoint_rules::Problem;
use block_text::CertFault;
use command_shape::{Ending, Judge, Judged, judge_blocks, refused_evidence};
use lists::{Listing, Stop};
use quiver::Quiver;
use std::alloc::{AllocError, Global};

/// What a command of evidence reads, judges and prints.
pub(crate) trait EvidenceKind: Drop {
    /// What is judged.
    type Block: Drop;
    /// Why a block is refused.
    type Refusal: Drop;

    ghost kind: { Kind Self.Block Self.Refusal };

    // Which blocks can be judged.
    ghost is_readable: { List Declaration → Self.Block → Type 0 };

    // Which refusals name letters of the quiver alone.
    ghost has_letters: { List Declaration → Self.Refusal → Type 0 };

    /// The blocks of the text, or its first fault.
    fn read(
        &self,
        alloc: Global,
        text: &[u8],
        quiver: &Quiver,
    ) -> Result<Listing<Self::Block>, CertFault>
        requires { length text.now ≤ evidence_limit }
        ensures exact { MatchResult result (kind.AreBlocks quiver.now text.now) (ExplainsBy (kind.IsFirstFault quiver.now text.now)) }
        ensures readable { IfOk result (All (is_readable quiver.now)) };

    /// What accepting the block says, or why it is refused.
    fn judge(
        &self,
        alloc: Global,
        problem: &Problem,
        block: &Self::Block,
    ) -> Result<Vec<u8>, Self::Refusal>
        requires { is_readable problem.now.parts.quiver block.now }
        ensures accepted { IfOk result (λ text. Accepts kind problem.now block.now text.items) }
        ensures refused { IfErr result (kind.IsRefused problem.now block.now) }
        ensures letters { IfErr result (has_letters problem.now.parts.quiver) };

    /// Appends why a block is refused. Want of memory has no text.
    fn put_cause(
        &self,
        out: &mut Vec<u8>,
        quiver: &Quiver,
        refusal: &Self::Refusal,
    ) -> Result<(), AllocError>
        requires { has_letters quiver.now refusal.now }
        ensures { OnOk result (Puts (kind.cause quiver.now refusal.now) out.old.items out.new.items) };
}

// The tests of a kind, block by block.
#[derive(Drop)]
struct Tests<K: EvidenceKind> {
    kind: K,
}

impl<K: EvidenceKind> Judge for Tests<K> {
    type Block = K::Block;

    ghost can_judge = { λ problem block. K.is_readable problem.parts.quiver block };

    ghost accepts = { Accepts K.kind };

    ghost refuses = { Refuses K.kind };

    fn judge(
        &self,
        alloc: Global,
        problem: &Problem,
        block: &K::Block,
    ) -> Result<Judged, AllocError> {
        match self.kind.judge(alloc, problem, block) {
            Ok(text) => Ok(Judged::Accepted(text)),
            Err(refusal) => {
                let mut cause = Vec::new(alloc);
                self.kind
                    .put_cause(&mut cause, &problem.parts.quiver, &refusal)?;
                Ok(Judged::Refused(cause))
            }
        }
    }
}

/// How a run ends over a problem and a text of evidence of the kind.
pub(crate) fn answer_text<K: EvidenceKind>(
    alloc: Global,
    kind: K,
    problem: &Problem,
    text: &[u8],
) -> Result<Ending, Stop<Ending>>
    requires { length text.now ≤ evidence_limit }
    ensures { EndsAs (AnswersText K.kind text.now problem.now) result }
{
    let blocks = blocks_of(alloc, &kind, text, &problem.parts.quiver)?;
    judge_blocks(alloc, &Tests { kind }, problem, blocks.as_slice())
}

// The blocks of the text, or the ending that says its first fault.
fn blocks_of<K: EvidenceKind>(
    alloc: Global,
    kind: &K,
    text: &[u8],
    quiver: &Quiver,
) -> Result<Listing<K::Block>, Stop<Ending>>
    requires { length text.now ≤ evidence_limit }
    ensures read { IfOk result (K.kind.AreBlocks quiver.now text.now) }
    ensures readable { IfOk result (All (K.is_readable quiver.now)) }
    ensures stopped { IfErr result
        (StopsBy (OverEvidence (K.kind.AreBlocks quiver.now text.now) (K.kind.IsFirstFault quiver.now text.now) (λ _ _. ⊥))) }
{
    match kind.read(alloc, text, quiver) {
        Ok(blocks) => Ok(blocks),
        Err(CertFault::Fault { code, line, limit }) => {
            let ending = refused_evidence(alloc, code, line, limit)?;
            Err(Stop::Fault(ending))
        }
        Err(CertFault::Memory(failed)) => Err(Stop::Memory(failed)),
    }
}
