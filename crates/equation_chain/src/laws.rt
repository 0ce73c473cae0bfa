//! The laws of chains, for users.
ghost use Rattle.equation_chain.specs.Laws.{EachCertificateIsExplained, FirstFaultIsUnique, ExplainedHasNoFault};
ghost use Rattle.equation_chain.specs.Laws.{StepsAreTyped, StepsAddUp, LinesAreAChain, LinesAreTyped, LinesVanish};
ghost use Rattle.equation_chain.specs.Back.{ChainsAreReadBack, ChainsAreUnique, TextsTellChains, ExplainedIsReadable};

use category_laws::Preadditive;

/// Each certificate has a chain or a first fault.
pub fn each_certificate_is_explained()
    ensures { EachCertificateIsExplained }
{}

/// A certificate has at most one first fault, apart from want of memory.
pub fn first_fault_is_unique()
    ensures { FirstFaultIsUnique }
{}

/// A certificate that has a chain has no fault but want of memory.
pub fn explained_has_no_fault()
    ensures { ExplainedHasNoFault }
{}

/// All words of each step are paths of the claim's signature.
pub fn steps_are_typed()
    ensures { StepsAreTyped }
{}

/// The steps of an accepted certificate add up to its denominator times its claim.
pub fn steps_add_up()
    ensures { StepsAddUp }
{}

/// The lines of a chain lead from that multiple of the claim to zero, and neighbours differ by one step.
pub fn lines_are_a_chain()
    ensures { LinesAreAChain }
{}

/// Each line has the claim's signature.
pub fn lines_are_typed()
    ensures { LinesAreTyped }
{}

/// In the given category, each line is zero wherever the generators are.
pub fn lines_vanish<C: Preadditive>(category: &C)
    ensures { LinesVanish (C.structure category.now) }
{}

/// Chains that are written are read as they are, whatever texts are before and after them, where objects and maps have names of the language.
pub fn chains_are_read_back()
    ensures { ChainsAreReadBack }
{}

/// A text has at most one list of chains.
pub fn chains_are_unique()
    ensures { ChainsAreUnique }
{}

/// Two chains with the same text are the same chain.
pub fn texts_tell_chains()
    ensures { TextsTellChains }
{}

/// The chain of each explained certificate is readable.
pub fn explained_is_readable()
    ensures { ExplainedIsReadable }
{}
