//! The laws of a completion: its invariant, and what follows from it.
ghost use Rattle.confluence.specs.Kept.{StartIsKept, GeneratorsAreKept, AmbiguitiesAreKept, ResolvedAtOnceIsKept};
ghost use Rattle.confluence.specs.Making.{PushedRulesAreMade};
ghost use Rattle.confluence.specs.Typed.{NormalFormsStayTyped, SPolynomialsStayTyped, RulesStayTyped, TypedHasNoEmptyWord};
ghost use Rattle.confluence.specs.Shapes.{NormalFormsAreShaped, SPolynomialsAreShaped, RestsHaveLettersBelow};
ghost use Rattle.confluence.specs.Conclusions.{ResolvedWhereClosed, ResolvedBelowPending, RulesAreInside, ZeroIsInside};
ghost use Rattle.confluence.specs.Conclusions.{NonzeroIsOutside, NonzeroIsNotBelow};

/// The invariant holds where there are no rules.
pub fn start_is_kept()
    ensures { StartIsKept }
{}

/// A generator is reduced by the rules so far, and its rest becomes a rule.
pub fn generators_are_kept()
    ensures { GeneratorsAreKept }
{}

/// The S-polynomial of an ambiguity is reduced by the rules from the start of the round and then by the rules so far, and its
/// rest becomes a rule.
pub fn ambiguities_are_kept()
    ensures { AmbiguitiesAreKept }
{}

/// The rest of the first of the two reductions is zero.
pub fn resolved_at_once_is_kept()
    ensures { ResolvedAtOnceIsKept }
{}

/// Where nothing is pending, the rules are resolved.
pub fn resolved_where_closed()
    ensures { ResolvedWhereClosed }
{}

/// Where nothing is pending below a word, they are resolved below it.
pub fn resolved_below_pending()
    ensures { ResolvedBelowPending }
{}

/// Each rule is in the rational ideal of the generators.
pub fn rules_are_inside()
    ensures { RulesAreInside }
{}

/// A polynomial that is reduced to zero is in it.
pub fn zero_is_inside()
    ensures { ZeroIsInside }
{}

/// Where nothing is pending, a polynomial with a nonzero rest is outside.
pub fn nonzero_is_outside()
    ensures { NonzeroIsOutside }
{}

/// Where nothing is pending below a word, it does not come from the generators below that word.
pub fn nonzero_is_not_below()
    ensures { NonzeroIsNotBelow }
{}

/// The rest of a polynomial that is typed and in play, by such rules, is typed and in play.
pub fn normal_forms_stay_typed()
    ensures { NormalFormsStayTyped }
{}

/// So is each S-polynomial of such rules.
pub fn s_polynomials_stay_typed()
    ensures { SPolynomialsStayTyped }
{}

/// So are the rules with one that is made of such a rest.
pub fn rules_stay_typed()
    ensures { RulesStayTyped }
{}

/// No word of a typed polynomial is empty.
pub fn typed_has_no_empty_word()
    ensures { TypedHasNoEmptyWord }
{}

/// A normal form is sorted, with coefficients in range, where the polynomial is.
pub fn normal_forms_are_shaped()
    ensures { NormalFormsAreShaped }
{}

/// So is each S-polynomial.
pub fn s_polynomials_are_shaped()
    ensures { SPolynomialsAreShaped }
{}

/// The letters of the rest are below the number that those of the polynomial are below.
pub fn rests_have_letters_below()
    ensures { RestsHaveLettersBelow }
{}

/// A rest that is divided by its content, or by the negative of that, becomes a rule.
pub fn pushed_rules_are_made()
    ensures { PushedRulesAreMade }
{}
