//! The laws of each command of evidence, for users.
ghost use Rattle.command_shape.specs.declared.evidence.EvidenceCommand.{EvidenceCommand};
ghost use Rattle.evidence_commands.specs.Commands.{judged_by};
ghost use Rattle.evidence_commands.specs.Laws.{PassingAreAnswered, ZeroIsPassing, ZeroMeans, FaultsAreAnswered, ThreeIsFaulty, ReadBasesAreReadable};

use category_laws::Preadditive;

/// Blocks that all pass are answered by 0 and a line on each, by no other status and by no other lines.
pub fn passing_blocks_are_answered_by_0()
    ensures answered { (command : EvidenceCommand) → PassingAreAnswered (judged_by command).kind }
    ensures no_others { (command : EvidenceCommand) → ZeroIsPassing (judged_by command).kind }
{}

/// Where the main theorem holds of an ending with status 0, each block of the text has its meaning in the given
/// category.
pub fn status_0_means_what_blocks_mean<C: Preadditive>(category: &C)
    ensures { (command : EvidenceCommand) → ZeroMeans (judged_by command).kind (C.structure category.now) }
{}

/// A statement with a fault is answered by 3 and the line on its first fault, and no other is.
pub fn a_faulty_statement_is_answered_by_3()
    ensures answered { (command : EvidenceCommand) → FaultsAreAnswered (judged_by command).kind }
    ensures no_others { (command : EvidenceCommand) → ThreeIsFaulty (judged_by command).kind }
{}

/// The bases of a text can be checked.
pub fn read_bases_are_readable()
    ensures { ReadBasesAreReadable }
{}
