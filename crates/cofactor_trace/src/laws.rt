//! The laws of expansions and of gathered certificates: their sums, their sizes, and their common multiples.
ghost use Rattle.cofactor_trace.specs.CommonMultiples.{MultiplesAreLeast};
ghost use Rattle.cofactor_trace.specs.GatheringLaws.{GatheringsAddUp, GatheringsAreRanged, GatheringsFit, LemmasAreNamed, LemmasHaveRows, WordsAreKept};
ghost use Rattle.cofactor_trace.specs.Laws.{ExpansionsBalance, ExpansionsFit, GeneratorsAreNamed};

/// Where the rows of each record add up to its scale times its rule, those of an expansion add up, over the generators
/// alone, to its denominator, which is positive, times the polynomial of the target.
pub fn expansions_balance()
    ensures { ExpansionsBalance }
{}

/// An expansion has at most 200,000 rows and 1,000,000 letters in all their words, and no word of more than 500.
pub fn expansions_fit()
    ensures { ExpansionsFit }
{}

/// Where the records name only the first generators, by a count, so does an expansion.
pub fn generators_are_named()
    ensures { GeneratorsAreNamed }
{}

/// Where the rows of each record add up to its scale times its rule, a gathered certificate is evidence of the polynomial of the
/// target: its lemmas are rules, each lemma's rows add up to its scale times its rule over generators and earlier lemmas, and so
/// do those of the goal; each scale is positive and divides the denominator.
pub fn gatherings_add_up()
    ensures { GatheringsAddUp }
{}

/// A gathered certificate has at most 200,000 rows and 1,000,000 letters in all their words.
pub fn gatherings_fit()
    ensures { GatheringsFit }
{}

/// Where each record has a row, so has each lemma, and there are at most 200,000 lemmas.
pub fn lemmas_have_rows()
    ensures { LemmasHaveRows }
{}

/// The denominator, the scales and the coefficients of a gathered certificate are coefficients.
pub fn gatherings_are_ranged()
    ensures { GatheringsAreRanged }
{}

/// Where a test is true at each word of the records, it is true at each word of a gathered certificate.
pub fn words_are_kept()
    ensures { WordsAreKept }
{}

/// Where the records name only the first generators, by a count, so does a gathered certificate. Each
/// lemma names only earlier lemmas, and the goal existing ones.
pub fn lemmas_are_named()
    ensures { LemmasAreNamed }
{}

/// Each of several integers divides their common multiple, which divides each number that all of them divide, and is positive
/// where they are.
pub fn multiples_are_least()
    ensures { MultiplesAreLeast }
{}
