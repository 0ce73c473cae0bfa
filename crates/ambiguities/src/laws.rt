//! The laws of S-polynomials.
ghost use Rattle.ambiguities.specs.Laws.{SPolynomialsBalance, LeadingWordsCancel, SPolynomialsAreTyped};

/// The S-polynomial is the sum of its two rows over the rules.
pub fn s_polynomials_balance()
    ensures { SPolynomialsBalance }
{}

/// In an admissible order each word of the S-polynomial is below the overlap word, and each word of the multiple of a row is
/// at most the overlap word.
pub fn leading_words_cancel()
    ensures { LeadingWordsCancel }
{}

/// Where the rules are typed, the overlap word is a path, and all words of the S-polynomial and of the multiples of the rows
/// are paths of its signature.
pub fn s_polynomials_are_typed()
    ensures { SPolynomialsAreTyped }
{}
