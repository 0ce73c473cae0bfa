//! The representation that a model describes.
ghost use Rattle.std.specs.Prelude.{◌≡◌, ◌<◌, length, Some, IfOk};
ghost use Rattle.definitions.specs.Quiver.{letters, IsQuiver};
ghost use Rattle.quiver.specs.Declarations.{letter_count, quiver_of};
ghost use Rattle.matrix_models.specs.Matrix.{Matrix};
ghost use Rattle.matrix_models.specs.Matrices.{transpose};
ghost use Rattle.model_checker.specs.Models.{IsModel, HaveMatrices};
ghost use Rattle.model_checker.specs.Representations.{map_at, arrow_of};
ghost use Rattle.model_checker.specs.Listed.{AreOfModel};

use category_laws::{Category, Involutive};
use lists::{Duplicate, Listing};
use matrix_models::{Matrices, Matrix, Model};
use quiver::Quiver;
use representations::Representation;
use std::alloc::{AllocError, Global};
use word_core::Letter;

/// The representation in matrices that a model describes all of whose declared maps have their matrices. It fails only where
/// memory is short.
pub fn representation_of(
    alloc: Global,
    quiver: &Quiver,
    model: &Model,
) -> Result<Representation<Matrices>, AllocError>
    requires quiver { IsQuiver (quiver_of quiver.now) }
    requires model { IsModel (quiver_of quiver.now) model.now }
    requires maps { HaveMatrices (quiver_of quiver.now) model.now (letters (quiver_of quiver.now)) }
    ensures { IfOk result (λ f. AreOfModel (quiver_of quiver.now) model.now f.objects f.arrows) }
{
    let mut arrows = Listing::new(alloc);
    for number in 0..quiver.letters() {
        arrows.push(arrow_for(alloc, quiver, model, Letter(number as u16))?)?;
    }
    let objects = model.sides.duplicate()?;
    Ok(Representation { objects, arrows })
}

// The matrix of a letter.
fn arrow_for(
    alloc: Global,
    quiver: &Quiver,
    model: &Model,
    letter: Letter,
) -> Result<Matrix, AllocError>
    requires letter { letter.0 < letter_count quiver.now }
    requires quiver { IsQuiver (quiver_of quiver.now) }
    requires model { IsModel (quiver_of quiver.now) model.now }
    requires maps { HaveMatrices (quiver_of quiver.now) model.now (letters (quiver_of quiver.now)) }
    ensures { IfOk result (λ x. x ≡ arrow_of (quiver_of quiver.now) model.now letter.0) }
{
    if u32::from(letter.0) < quiver.objects() {
        let category = Matrices {
            modulus: model.modulus,
        };
        return category.identity(alloc, model.sides.at(usize::from(letter.0)));
    }
    let star = quiver.star_of(letter);
    if letter.0 <= star.0 {
        return map_of(model, letter).duplicate();
    }
    transpose_of(alloc, map_of(model, star))
}

// The matrix of a declared map that has one.
fn map_of(model: &Model, letter: Letter) -> &Matrix
    requires in_range { letter.0 < length model.now.maps }
    requires there { (x : Matrix) × (map_at model.now letter.0 ≡ Some x) }
    ensures { map_at model.now letter.0 ≡ Some result.now }
{
    match model.maps.at(usize::from(letter.0)) {
        Some(matrix) => matrix,
        None => unreachable!(),
    }
}

// The transpose, modulo the matrix's own modulus.
pub(crate) fn transpose_of(alloc: Global, matrix: &Matrix) -> Result<Matrix, AllocError>
    ensures { IfOk result (λ x. x ≡ transpose matrix.now.modulus matrix.now) }
{
    let category = Matrices {
        modulus: matrix.modulus(),
    };
    category.adjoint(alloc, matrix)
}
