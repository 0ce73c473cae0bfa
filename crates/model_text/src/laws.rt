//! The laws of models in evidence text. They have nothing to run.
ghost use Rattle.std.specs.Prelude.{List};
ghost use Rattle.block_text.specs.Laws.{EachIsRead, ValuesAreUnique, FaultIsUnique, ValuesHaveNoFault};
ghost use Rattle.model_text.specs.Back.{ModelsAreReadBack};
ghost use Rattle.model_text.specs.Models.{IsModels, IsFirstFault};
ghost use Rattle.quiver.specs.Declarations.{Declaration};

/// Each text has models, or a first fault.
pub fn each_text_is_read()
    ensures { (ds : List Declaration) → EachIsRead (IsModels ds) (IsFirstFault ds) }
{}

/// A text has at most one list of models.
pub fn models_are_unique()
    ensures { (ds : List Declaration) → ValuesAreUnique (IsModels ds) (IsFirstFault ds) }
{}

/// A text has at most one first fault.
pub fn first_fault_is_unique()
    ensures { (ds : List Declaration) → FaultIsUnique (IsModels ds) (IsFirstFault ds) }
{}

/// A text that has models has no fault.
pub fn models_have_no_fault()
    ensures { (ds : List Declaration) → ValuesHaveNoFault (IsModels ds) (IsFirstFault ds) }
{}

/// A model that is written is read as it is, whatever whole lines are before it and whatever follows. It has
/// nothing to run.
pub fn models_are_read_back()
    ensures { ModelsAreReadBack }
{}
