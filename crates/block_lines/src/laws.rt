//! The laws of bases in evidence text. They have nothing to run.
ghost use Rattle.std.specs.Prelude.{List};
ghost use Rattle.block_text.specs.Laws.{EachIsRead, ValuesAreUnique, FaultIsUnique, ValuesHaveNoFault};
ghost use Rattle.block_lines.specs.Back.{BasesAreReadBack, ArePartsReadBack};
ghost use Rattle.block_lines.specs.Bases.{IsBases, IsFirstFault};
ghost use Rattle.quiver.specs.Declarations.{Declaration};

/// Each text has bases, or a first fault.
pub fn each_text_is_read()
    ensures { (ds : List Declaration) → EachIsRead (IsBases ds) (IsFirstFault ds) }
{}

/// A text has at most one list of bases.
pub fn bases_are_unique()
    ensures { (ds : List Declaration) → ValuesAreUnique (IsBases ds) (IsFirstFault ds) }
{}

/// A text has at most one first fault.
pub fn first_fault_is_unique()
    ensures { (ds : List Declaration) → FaultIsUnique (IsBases ds) (IsFirstFault ds) }
{}

/// A text that has bases has no fault.
pub fn bases_have_no_fault()
    ensures { (ds : List Declaration) → ValuesHaveNoFault (IsBases ds) (IsFirstFault ds) }
{}

/// A basis that is written is read as it is, whatever whole lines are before it and whatever follows. It has
/// nothing to run.
pub fn bases_are_read_back()
    ensures { BasesAreReadBack }
{}

/// The bases of a text of written bases, comments and blocks of other kinds are those bases, in their order. It has
/// nothing to run.
pub fn parts_are_read_back()
    ensures { ArePartsReadBack }
{}
