//! The laws of the store.
ghost use Rattle.traced_completion.specs.StoreLaws.{StoresAreUnique, LeastWordsAreLeast, NothingIsPendingAtFirst, AmbiguitiesStay};
ghost use Rattle.traced_completion.specs.StoreLaws.{TakenOnesAreAmbiguities, PendingWordsAreOver};

/// Two lists with all pending ones of the same rules are the same.
pub fn stores_are_unique()
    ensures { StoresAreUnique }
{}

/// The first overlap word of the store is the least one.
pub fn least_words_are_least()
    ensures { LeastWordsAreLeast }
{}

/// Without rules nothing is pending.
pub fn nothing_is_pending_at_first()
    ensures { NothingIsPendingAtFirst }
{}

/// Where rules are appended, the ambiguities of the first ones stay, with their overlap words, and all others have a
/// number of an appended one.
pub fn ambiguities_stay()
    ensures { AmbiguitiesStay }
{}

/// The treated ones stay ambiguities of the rules when the first pending ones are taken and rules are appended.
pub fn taken_ones_are_ambiguities()
    ensures { TakenOnesAreAmbiguities }
{}

/// The overlap words are over the letters that the rules' words are over.
pub fn pending_words_are_over()
    ensures { PendingWordsAreOver }
{}
