//! The two passes over the rules: for their types, and for letters out of play.

ghost use Rattle.std.specs.Prelude.{◌≡◌, ◌≢◌, ◌<◌, ◌^◌, [], length, nat_eq, IfSome, IfNone};
ghost use Rattle.std.specs.List.{All, list_all, list_any};
ghost use Rattle.word_core.specs.Letters.{IsOver};
ghost use Rattle.quiver.specs.Declarations.{letter_count};
ghost use Rattle.adjoint_rules.specs.Problem.{numbers, is_in_play};
ghost use Rattle.normal_category.specs.Faults.{IsFirstWithout, IsTypedIn, PlaysIn};

use adjoint_rules::Parts;
use nc_polynomial::Poly;
use rule_reduce::Rule;
use word_core::{Letter, Object, Word};

/// The number of the first rule whose words aren't paths of one signature.
pub(crate) fn first_untyped(parts: &Parts, rules: &[Rule]) -> Option<u32>
    requires over { All (λ g. All (λ t. IsOver (letter_count parts.now.quiver) t.1) g.poly.terms) rules.now }
    requires nonzero { All (λ g. g.poly.terms ≢ []) rules.now }
    requires few { length rules.now < 2 ^ 32 }
    ensures found { IfSome result (IsFirstWithout (IsTypedIn parts.now) rules.now) }
    ensures none { IfNone result (All (IsTypedIn parts.now) rules.now) }
{
    for place in 0..rules.len() {
        if parts.quiver.poly_signature(&rules[place].poly).is_none() {
            return Some(place as u32 + 1);
        }
    }
    None
}

/// The number of the first rule with a letter that isn't in play.
pub(crate) fn first_out_of_play(parts: &Parts, rules: &[Rule]) -> Option<u32>
    requires few { length rules.now < 2 ^ 32 }
    ensures found { IfSome result (IsFirstWithout (PlaysIn parts.now) rules.now) }
    ensures none { IfNone result (All (PlaysIn parts.now) rules.now) }
{
    for place in 0..rules.len() {
        if !has_letters_in_play(parts, &rules[place].poly) {
            return Some(place as u32 + 1);
        }
    }
    None
}

// Whether all letters of the polynomial are in play.
fn has_letters_in_play(parts: &Parts, poly: &Poly) -> bool
    ensures { result ≡ list_all (λ t. list_all (is_in_play parts.now.quiver parts.now.starred (numbers parts.now.marked)) t.1) poly.now.terms }
{
    poly.terms
        .as_slice()
        .iter()
        .all(|term| is_word_in_play(parts, &term.1))
}

// Whether all letters of the word are in play.
fn is_word_in_play(parts: &Parts, word: &Word) -> bool
    ensures { result ≡ list_all (is_in_play parts.now.quiver parts.now.starred (numbers parts.now.marked)) word.now }
{
    for place in 0..word.len() {
        if !is_in_play(parts, word.letter(place)) {
            return false;
        }
    }
    true
}

// Whether the letter is in play: the identity of a marked object, a declared map, or its adjoint where the statement is starred.
fn is_in_play(parts: &Parts, letter: Letter) -> bool
    ensures { result ≡ is_in_play parts.now.quiver parts.now.starred (numbers parts.now.marked) letter.0 }
{
    if u32::from(letter.0) >= parts.quiver.letters() {
        false
    } else if u32::from(letter.0) < parts.quiver.objects() {
        is_marked(parts.marked.as_slice(), letter)
    } else {
        parts.starred || letter.0 <= parts.quiver.star_of(letter).0
    }
}

// Whether the letter is the identity of one of the objects.
fn is_marked(marked: &[Object], letter: Letter) -> bool
    ensures { result ≡ list_any (λ v. nat_eq letter.0 v.0) marked.now }
{
    marked.iter().any(|object| letter.0 == object.0)
}
