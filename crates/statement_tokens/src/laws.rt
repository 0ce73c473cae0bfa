//! The laws of the tokens of all texts. They have nothing to run.

ghost use Rattle.statement_tokens.specs.Laws.{EachTextHasTokensOrFault, TokensAreUnique, FirstScanFaultsAreUnique};
ghost use Rattle.statement_tokens.specs.Laws.{TokensHaveNoFault};

/// Each text has tokens or a first fault.
pub fn each_text_has_tokens_or_a_fault()
    ensures { EachTextHasTokensOrFault }
{}

/// No text has two lists of tokens, or two first faults, or both tokens and a fault.
pub fn tokens_and_faults_are_unique()
    ensures tokens { TokensAreUnique }
    ensures faults { FirstScanFaultsAreUnique }
    ensures apart { TokensHaveNoFault }
{}
