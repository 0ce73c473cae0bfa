//! The laws that give certificates their meaning, in every category. They have nothing to run.

ghost use Rattle.definitions.specs.Soundness.{IsSound, IsStarSound, IsUnitSound, TypedRowsSuffice};
ghost use Rattle.representations.specs.Evidence.{IsEvidenceSound, IsEvidenceStarSound};

use category_laws::{Involutive, Preadditive};

/// In the given category a certificate proves its claim: for every quiver, list of typed generators and
/// list of rows whose sum is d times the claim, each representation in which d cancels and all generators have the
/// value zero gives the claim the value zero. Rows need not be typed. The same holds of a certificate with lemmas.
pub fn sound<C: Preadditive>(category: &C)
    ensures rows { IsSound (C.structure category.now) }
    ensures lemmas { IsEvidenceSound (C.structure category.now) }
{}

/// In the given category, and in each star representation, the assumptions of a statement make all its
/// generators zero: their adjoints and the relations of the identities follow. So a certificate over the generators, with
/// lemmas or without, gives its claim the value zero where the assumptions have it.
pub fn star_sound<C: Involutive>(category: &C)
    ensures generators { IsStarSound (C.structure category.now) (C.involution category.now) }
    ensures lemmas { IsEvidenceStarSound (C.structure category.now) (C.involution category.now) }
{}

/// In the given category a certificate with lemmas proves its claim: where each lemma's scale times its
/// polynomial is the sum of its rows over generators and earlier lemmas, the goal's scale times the claim is the sum of
/// the goal's rows, and each scale is positive and divides the denominator, each representation in which the denominator
/// cancels and all generators have the value zero gives the claim the value zero. Neither rows nor lemmas need be typed.
pub fn lemmas_sound<C: Preadditive>(category: &C)
    ensures { IsEvidenceSound (C.structure category.now) }
{}

/// In the given category, and in each star representation, a certificate with lemmas over the generators of
/// a statement gives its claim the value zero where the assumptions have it and the denominator cancels.
pub fn lemmas_star_sound<C: Involutive>(category: &C)
    ensures { IsEvidenceStarSound (C.structure category.now) (C.involution category.now) }
{}

/// In the given category, and in each representation, the assumptions of a statement that isn't starred make
/// all its generators zero: the relations of the identities hold anyway, without an involution.
pub fn unit_sound<C: Preadditive>(category: &C)
    ensures { IsUnitSound (C.structure category.now) }
{}

/// Of the rows of a typed claim those with the claim's signature have the same sum.
pub fn typed_rows_suffice()
    ensures { TypedRowsSuffice }
{}
