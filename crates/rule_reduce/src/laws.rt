//! What a reduction chooses and what it gives, as laws over the definitions.
ghost use Rattle.rule_reduce.specs.Choices.{ChoicesAreExact};
ghost use Rattle.rule_reduce.specs.Laws.{ReductionsBalance, MultipliersArePositive, RowsAreByRules, RestsAreIrreducible};
ghost use Rattle.rule_reduce.specs.KeptWords.{WordsStayBelow, TypesAreKept, LettersAreKept};

/// The choice of a step is the greatest word in which a leading word occurs, the least number of a rule whose leading word
/// does, and its leftmost place; and there is no other such choice.
pub fn choices_are_exact()
    ensures { ChoicesAreExact }
{}

/// The multiplier times the polynomial is the rest plus the sum of the rows over the rules.
pub fn reductions_balance()
    ensures { ReductionsBalance }
{}

/// The multiplier is positive.
pub fn multipliers_are_positive()
    ensures { MultipliersArePositive }
{}

/// Each row is a multiple of a rule.
pub fn rows_are_by_rules()
    ensures { RowsAreByRules }
{}

/// No word of the rest has a leading word in it.
pub fn rests_are_irreducible()
    ensures { RestsAreIrreducible }
{}

/// Each word of the rest, and each word to which a row multiplies its rule, is at most a word of the polynomial.
pub fn words_stay_below()
    ensures { WordsStayBelow }
{}

/// Where the rules and the polynomial are typed, these words are paths of the polynomial's signature.
pub fn types_are_kept()
    ensures { TypesAreKept }
{}

/// The letters of these words are letters of the polynomial and of the rules.
pub fn letters_are_kept()
    ensures { LettersAreKept }
{}
