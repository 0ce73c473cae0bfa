//! The laws of confluence.
ghost use Rattle.confluence.specs.Places.{PlacesOfOneWord, RowsApartDiffer};
ghost use Rattle.confluence.specs.Reductions.{NormalFormsAreReduced};
ghost use Rattle.confluence.specs.Reducible.{ReducibleBelow, ReducibleInIdeal, RestsBelowAreZero, RestsOfIdealAreZero};
ghost use Rattle.confluence.specs.ZeroRests.{ZeroRestsAreInside, ZeroRestsAreResolved, IdealsStayInside};

/// Two leading words in one word are of one rule at one place, or apart, or they come from an ambiguity.
pub fn places_of_one_word()
    ensures { PlacesOfOneWord }
{}

/// Rows at places apart, each times the leading coefficient of the other's rule, differ by lower rows.
pub fn rows_apart_differ()
    ensures { RowsApartDiffer }
{}

/// Where the rules are resolved below a word, what comes from them below it is zero or has a greatest word in which a
/// leading word occurs.
pub fn reducible_below()
    ensures { ReducibleBelow }
{}

/// Where the rules are resolved, each nonzero element of their rational ideal has such a greatest word.
pub fn reducible_in_ideal()
    ensures { ReducibleInIdeal }
{}

/// A normal form is a reduction: a positive multiple of the polynomial is the rest and multiples of rules, no word of
/// which is above the words of the polynomial, and no leading word occurs in the rest.
pub fn normal_forms_are_reduced()
    ensures { NormalFormsAreReduced }
{}

/// Where the rules are resolved below a word, what comes from them below it is reduced to zero.
pub fn rests_below_are_zero()
    ensures { RestsBelowAreZero }
{}

/// Where the rules are resolved, each element of their rational ideal is reduced to zero.
pub fn rests_of_ideal_are_zero()
    ensures { RestsOfIdealAreZero }
{}

/// A polynomial that is reduced to zero is in the rational ideal of the rules.
pub fn zero_rests_are_inside()
    ensures { ZeroRestsAreInside }
{}

/// An ambiguity whose S-polynomial is reduced to zero is resolved.
pub fn zero_rests_are_resolved()
    ensures { ZeroRestsAreResolved }
{}

/// Where each generator is in the rational ideal of some polynomials, so is the rational ideal of the
/// generators.
pub fn ideals_stay_inside()
    ensures { IdealsStayInside }
{}
