//! The commands of evidence, and their names.
ghost use Rattle.std.specs.Prelude.{◌≡◌};
ghost use Rattle.command_shape.specs.CommandSet.{name_of};
ghost use Rattle.command_shape.specs.Present.{IsEvidenceName};

/// A command that judges a file of evidence over a statement.
#[derive(Clone, Copy)]
pub enum EvidenceCommand {
    /// Checks certificates.
    Check,
    /// Confirms models.
    Model,
    /// Checks closed rule sets by themselves.
    Confirm,
    /// Prints proofs as chains of equations.
    Explain,
    /// Checks proofs that cancel monic and epic maps.
    Cancel,
}

/// The commands of evidence that are last in the set, in their order.
pub(crate) const LAST_COMMANDS: &[EvidenceCommand] = &[
    EvidenceCommand::Confirm,
    EvidenceCommand::Explain,
    EvidenceCommand::Cancel,
];

impl EvidenceCommand {
    /// The word that names the command.
    pub(crate) fn name<'a>(self) -> &'a str
        ensures { result.now ≡ name_of self }
    {
        match self {
            EvidenceCommand::Check => "check",
            EvidenceCommand::Model => "model",
            EvidenceCommand::Confirm => "confirm",
            EvidenceCommand::Explain => "explain",
            EvidenceCommand::Cancel => "cancel",
        }
    }
}

/// The command of this name.
#[tactic(auto, using(crate::proofs::Members::last_named))]
pub(crate) fn evidence_command(name: &str) -> EvidenceCommand
    requires { IsEvidenceName name.now }
    ensures { name.now ≡ name_of result }
{
    match name {
        "check" => EvidenceCommand::Check,
        "model" => EvidenceCommand::Model,
        "confirm" => EvidenceCommand::Confirm,
        "explain" => EvidenceCommand::Explain,
        _ => EvidenceCommand::Cancel,
    }
}
