//! Adjoints of polynomials.
ghost use Rattle.std.specs.Prelude.{◌≡◌, length, IfOk};
ghost use Rattle.std.specs.List.{All};
ghost use Rattle.word_core.specs.Letters.{IsOver};
ghost use Rattle.nc_polynomial.specs.Adjoint.{IsAdjoint, IsInvolution, numbers_of, reversed_star};

use crate::Poly;
use crate::table::descending;
use std::alloc::{AllocError, Global};
use std::collections::BTreeMap;
use word_core::{Letter, Word};

impl Poly {
    /// The adjoint: each word is reversed, and each of its letters is replaced by its adjoint, which is
    /// in the list at the letter's number.
    pub fn adjoint_by(&self, stars: &[Letter]) -> Result<Poly, AllocError>
        requires involution { IsInvolution (numbers_of stars.now) }
        requires listed { All (λ t. IsOver (length stars.now) t.1) self.now.terms }
        ensures { IfOk result (λ r. IsAdjoint (numbers_of stars.now) self.now.terms r.terms) }
    {
        let alloc = self.terms.allocator();
        let mut table = BTreeMap::new(alloc);
        for term in self.terms.as_slice() {
            table.insert(adjoint_word(alloc, &term.1, stars)?, term.0)?;
        }
        let terms = descending(alloc, table)?;
        Ok(Poly { terms })
    }
}

// The adjoints of the letters, in reverse.
fn adjoint_word(alloc: Global, word: &Word, stars: &[Letter]) -> Result<Word, AllocError>
    requires { IsOver (length stars.now) word.now }
    ensures { IfOk result (λ w. w ≡ reversed_star (numbers_of stars.now) word.now) }
{
    let mut adjoint = Word::with_room(alloc, word.len())?;
    let mut place = word.len();
    while place > 0 {
        place -= 1;
        let letter = word.letter(place);
        adjoint.push(stars[usize::from(letter.0)])?;
    }
    Ok(adjoint)
}
