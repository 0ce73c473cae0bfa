//! The laws of proofs that cancel letters in evidence text. They have nothing to run.
ghost use Rattle.std.specs.Prelude.{List};
ghost use Rattle.quiver.specs.Declarations.{Declaration};
ghost use Rattle.block_text.specs.Laws.{AreTold};
ghost use Rattle.cancellation_text.specs.Back.{CancellationsAreReadBack, ArePartsReadBack};
ghost use Rattle.cancellation_text.specs.Cancellations.{IsCancellations, IsFirstFault};

/// Each text has proofs or a first fault, in one way.
pub fn each_text_is_told()
    ensures { (ds : List Declaration) → AreTold (IsCancellations ds) (IsFirstFault ds) }
{}

/// A proof that is written is read as it is, whatever whole lines are before it and whatever follows. It has
/// nothing to run.
pub fn cancellations_are_read_back()
    ensures { CancellationsAreReadBack }
{}

/// The proofs of a text of written proofs, comments and blocks of other kinds are those proofs, in their order. It
/// has nothing to run.
pub fn parts_are_read_back()
    ensures { ArePartsReadBack }
{}
