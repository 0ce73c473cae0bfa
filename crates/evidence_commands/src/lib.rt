//! The commands of evidence: what each reads, judges and prints, a file a command.
#![tactic(auto)]

ghost use Rattle.std.specs.Prelude.{◌≤◌, length};
ghost use Rattle.command_shape.specs.FileWords.{evidence_limit};
ghost use Rattle.command_shape.specs.Stop.{EndsAs};
ghost use Rattle.evidence_commands.specs.Commands.{AnswersEvidence};

mod cancel;
mod cause;
mod chain;
mod check;
mod confirm;
mod explain;
mod kind;
mod laws;
mod model;

use crate::cancel::Cancellations;
use crate::check::Certificates;
use crate::confirm::Bases;
use crate::explain::Chains;
use crate::kind::answer_text;
use crate::model::Models;
use adjoint_rules::Problem;
use command_shape::{Ending, EvidenceCommand};
pub use laws::{
    a_faulty_statement_is_answered_by_3, passing_blocks_are_answered_by_0, read_bases_are_readable,
    status_0_means_what_blocks_mean,
};
use lists::Stop;
use std::alloc::Global;

/// How a run of the command ends over a problem and a text of evidence.
pub fn answer_evidence(
    alloc: Global,
    command: EvidenceCommand,
    problem: &Problem,
    text: &[u8],
) -> Result<Ending, Stop<Ending>>
    requires { length text.now ≤ evidence_limit }
    ensures { EndsAs (AnswersEvidence command text.now problem.now) result }
{
    match command {
        EvidenceCommand::Check => answer_text(alloc, Certificates, problem, text),
        EvidenceCommand::Model => answer_text(alloc, Models, problem, text),
        EvidenceCommand::Confirm => answer_text(alloc, Bases, problem, text),
        EvidenceCommand::Explain => answer_text(alloc, Chains, problem, text),
        EvidenceCommand::Cancel => answer_text(alloc, Cancellations, problem, text),
    }
}
