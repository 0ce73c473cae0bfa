//! The laws of models.
ghost use Rattle.model_checker.specs.Laws.{RefutingModelsAreCounterexamples, RefutedClaimsDoNotFollow, ModelRefusalIsUnique};
ghost use Rattle.model_checker.specs.Laws.{RefutingModelIsNotRefused, EachModelIsJudged};

/// A model that refutes its claim is a representation in matrices modulo its modulus, with transposes as adjoints, in
/// which the assumptions and all generators of the problem have the value zero, and the claim hasn't. It has nothing
/// to run.
pub fn refuting_models_are_counterexamples()
    ensures { RefutingModelsAreCounterexamples }
{}

/// A claim that a model refutes isn't the sum of rows over the generators, with a denominator that cancels in the
/// matrices of its modulus. It has nothing to run.
pub fn refuted_claims_do_not_follow()
    ensures { RefutedClaimsDoNotFollow }
{}

/// A model has at most one refusal, apart from want of memory: so `confirm_model` returns no other. It
/// has nothing to run.
pub fn model_refusal_is_unique()
    ensures { ModelRefusalIsUnique }
{}

/// A model that refutes its claim is refused only for want of memory. It has nothing to run.
pub fn refuting_model_is_not_refused()
    ensures { RefutingModelIsNotRefused }
{}

/// Each model refutes its claim, or one of the tests is the first that fails. It has nothing to run.
pub fn each_model_is_judged()
    ensures { EachModelIsJudged }
{}
