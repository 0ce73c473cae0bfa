//! The laws of evidence text. They have nothing to run.
ghost use Rattle.std.specs.Prelude.{List};
ghost use Rattle.block_text.specs.Laws.{EachIsRead, ValuesAreUnique, FaultIsUnique, ValuesHaveNoFault};
ghost use Rattle.certificate_text.specs.Back.{IsReadBack, ArePartsReadBack};
ghost use Rattle.certificate_text.specs.Evidence.{IsEvidence, IsFirstFault};
ghost use Rattle.traced_rows.specs.declared.evidence.Format.{Format};
ghost use Rattle.quiver.specs.Declarations.{Declaration};

/// Each text is evidence, or has a first fault.
pub fn each_text_is_read()
    ensures { (most : Format) (ds : List Declaration) → EachIsRead (IsEvidence most ds) (IsFirstFault most ds) }
{}

/// A text is evidence of at most one list of certificates.
pub fn evidence_is_unique()
    ensures { (most : Format) (ds : List Declaration) → ValuesAreUnique (IsEvidence most ds) (IsFirstFault most ds) }
{}

/// A text has at most one first fault.
pub fn first_fault_is_unique()
    ensures { (most : Format) (ds : List Declaration) → FaultIsUnique (IsEvidence most ds) (IsFirstFault most ds) }
{}

/// A text that is evidence has no fault.
pub fn evidence_has_no_fault()
    ensures { (most : Format) (ds : List Declaration) → ValuesHaveNoFault (IsEvidence most ds) (IsFirstFault most ds) }
{}

/// Evidence that is written is read as it is, in either format, whatever whole lines are before it and whatever
/// follows. It has nothing to run.
pub fn certificates_are_read_back()
    ensures { IsReadBack }
{}

/// The certificates of a text of written certificates, comments and blocks of other kinds are those certificates,
/// in their order. It has nothing to run.
pub fn parts_are_read_back()
    ensures { ArePartsReadBack }
{}
