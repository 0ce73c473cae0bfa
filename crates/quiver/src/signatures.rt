//! The signatures of words and polynomials over a quiver.

ghost use Rattle.std.specs.Prelude.{◌≡◌, ◌≢◌, ◌<◌, ◌↔◌, ℕ, [], All, IfSome, IfNone, IsTrue, option_map};
ghost use Rattle.definitions.specs.Quiver.{IsPath, IsTyped, signature_of};
ghost use Rattle.word_core.specs.Letters.{IsOver};
ghost use Rattle.quiver.specs.Declarations.{letter_count, object_count, quiver_of};
ghost use Rattle.quiver.specs.Signatures.{ends_of, HasPaths};

use crate::{Quiver, Sig};
use nc_polynomial::Poly;
use word_core::Word;

impl Quiver {
    /// The source of the word's last letter and the target of its first; `None` exactly where the word is empty or is no path.
    pub fn word_signature(&self, word: &Word) -> Option<Sig>
        requires { IsOver (letter_count self.now) word.now }
        ensures exact { option_map ends_of result ≡ signature_of (quiver_of self.now) word.now }
        ensures path { IfSome result (λ s. IsPath (quiver_of self.now) s.source.0 s.target.0 word.now) }
        ensures no_path { IfNone result ((u v : ℕ) → IsPath (quiver_of self.now) u v word.now → ⊥) }
    {
        if word.len() == 0 {
            return None;
        }
        let mut signature = self.signature_of(word.letter(0));
        for place in 1..word.len() {
            let next = self.signature_of(word.letter(place));
            if signature.source != next.target {
                return None;
            }
            signature.source = next.source;
        }
        Some(signature)
    }

    // Whether the word is a path of the signature.
    fn has_signature(&self, word: &Word, signature: Sig) -> bool
        requires { IsOver (letter_count self.now) word.now }
        ensures { IsTrue result ↔ IsPath (quiver_of self.now) signature.source.0 signature.target.0 word.now }
    {
        self.word_signature(word) == Some(signature)
    }

    /// The one signature of all words of the polynomial; `None` exactly where it has no term, or its words aren't paths of one signature.
    pub fn poly_signature(&self, poly: &Poly) -> Option<Sig>
        requires { All (λ t. IsOver (letter_count self.now) t.1) poly.now.terms }
        ensures paths { IfSome result (λ s. HasPaths (quiver_of self.now) s.source.0 s.target.0 poly.now.terms) }
        ensures typed { IfSome result (λ s. IsTyped (quiver_of self.now) s.source.0 s.target.0 poly.now.terms) }
        ensures no_paths { IfNone result ((u v : ℕ) → HasPaths (quiver_of self.now) u v poly.now.terms → ⊥) }
        ensures untyped { IfNone result ((u v : ℕ) → poly.now.terms ≢ [] → IsTyped (quiver_of self.now) u v poly.now.terms → ⊥) }
    {
        if poly.terms() == 0 {
            return None;
        }
        let signature = self.word_signature(poly.term(0).1)?;
        for place in 1..poly.terms() {
            if !self.has_signature(poly.term(place).1, signature) {
                return None;
            }
        }
        Some(signature)
    }
}
