//! Whether the matrices of a model fit the declared maps.
ghost use Rattle.std.specs.Prelude.{◌≡◌, ◌<◌, IfOk, IfErr, IsTrue, ◌↔◌};
ghost use Rattle.definitions.specs.Quiver.{letters, IsQuiver};
ghost use Rattle.quiver.specs.Declarations.{letter_count, quiver_of};
ghost use Rattle.matrix_models.specs.Matrices.{transpose};
ghost use Rattle.model_checker.specs.Models.{IsModel, IsMap, HasEnds, HasMatrix, HaveMatrices};
ghost use Rattle.model_checker.specs.Refusals.{RefusesMap};

use crate::ModelRefusal;
use crate::representation::transpose_of;
use category_laws::Category;
use matrix_models::{Matrices, Matrix, Model};
use quiver::Quiver;
use std::alloc::{AllocError, Global};
use word_core::Letter;

/// Each declared map has its matrix, or the refusal is that of the first that lacks it.
pub(crate) fn check_maps(alloc: Global, quiver: &Quiver, model: &Model) -> Result<(), ModelRefusal>
    requires quiver { IsQuiver (quiver_of quiver.now) }
    requires model { IsModel (quiver_of quiver.now) model.now }
    ensures fitting { IfOk result (λ _. HaveMatrices (quiver_of quiver.now) model.now (letters (quiver_of quiver.now))) }
    ensures refused { IfErr result (RefusesMap (quiver_of quiver.now) model.now) }
{
    for number in quiver.objects()..quiver.letters() {
        let letter = Letter(number as u16);
        if letter.0 <= quiver.star_of(letter).0 {
            check_map(alloc, quiver, model, letter)?;
        }
    }
    Ok(())
}

// Whether the declared map has its matrix.
fn check_map(
    alloc: Global,
    quiver: &Quiver,
    model: &Model,
    letter: Letter,
) -> Result<(), ModelRefusal>
    requires model { IsModel (quiver_of quiver.now) model.now }
    requires map { IsMap (quiver_of quiver.now) letter.0 }
    requires earlier { HaveMatrices (quiver_of quiver.now) model.now letter.0 }
    ensures fitting { IfOk result (λ _. HasMatrix (quiver_of quiver.now) model.now letter.0) }
    ensures refused { IfErr result (RefusesMap (quiver_of quiver.now) model.now) }
{
    let Some(matrix) = model.maps.at(usize::from(letter.0)) else {
        return Err(ModelRefusal::MissingMap { letter });
    };
    if !has_ends(quiver, model, letter, matrix) {
        return Err(ModelRefusal::BadShape { letter });
    }
    if quiver.star_of(letter) == letter && !is_self_transposed(alloc, matrix)? {
        return Err(ModelRefusal::NotSymmetric { letter });
    }
    Ok(())
}

// Whether the matrix has the model's modulus and the sides of the map's ends.
fn has_ends(quiver: &Quiver, model: &Model, letter: Letter, matrix: &Matrix) -> bool
    requires letter { letter.0 < letter_count quiver.now }
    requires model { IsModel (quiver_of quiver.now) model.now }
    ensures { IsTrue result ↔ HasEnds (quiver_of quiver.now) model.now letter.0 matrix.now }
{
    let ends = quiver.signature_of(letter);
    matrix.modulus() == model.modulus
        && matrix.rows() == *model.sides.at(usize::from(ends.target.0))
        && matrix.columns() == *model.sides.at(usize::from(ends.source.0))
}

// Whether the matrix is its own transpose.
fn is_self_transposed(alloc: Global, matrix: &Matrix) -> Result<bool, AllocError>
    ensures { IfOk result (λ same. IsTrue same ↔ (transpose matrix.now.modulus matrix.now ≡ matrix.now)) }
{
    let category = Matrices {
        modulus: matrix.modulus(),
    };
    let transposed = transpose_of(alloc, matrix)?;
    Ok(category.same(&transposed, matrix))
}
