//! Whether the value of a polynomial in a model is zero.
ghost use Rattle.std.specs.Prelude.{◌<◌, ◌↔◌, IfOk, IsTrue};
ghost use Rattle.definitions.specs.Quiver.{letters, IsQuiver, IsTyped};
ghost use Rattle.definitions.specs.Soundness.{HasValueZero};
ghost use Rattle.quiver.specs.Declarations.{object_count, quiver_of};
ghost use Rattle.matrix_models.specs.Matrices.{matrices};
ghost use Rattle.model_checker.specs.Models.{IsModel, HaveMatrices};
ghost use Rattle.model_checker.specs.Representations.{representation_of};
ghost use Rattle.model_checker.specs.Listed.{AreOfModel};

use category_laws::Category;
use matrix_models::{Matrices, Model};
use nc_polynomial::Poly;
use quiver::{Quiver, Sig};
use representations::{Representation, value_of};
use std::alloc::{AllocError, Global};

/// Whether the value of the polynomial in the model, at a signature of its own, is the zero matrix.
pub(crate) fn is_zero(
    alloc: Global,
    quiver: &Quiver,
    model: &Model,
    representation: &Representation<Matrices>,
    poly: &Poly,
    sig: Sig,
) -> Result<bool, AllocError>
    requires quiver { IsQuiver (quiver_of quiver.now) }
    requires model { IsModel (quiver_of quiver.now) model.now }
    requires maps { HaveMatrices (quiver_of quiver.now) model.now (letters (quiver_of quiver.now)) }
    requires lists { AreOfModel (quiver_of quiver.now) model.now representation.now.objects representation.now.arrows }
    requires typed { IsTyped (quiver_of quiver.now) sig.source.0 sig.target.0 poly.now.terms }
    requires source_in_range { sig.source.0 < object_count quiver.now }
    requires target_in_range { sig.target.0 < object_count quiver.now }
    ensures { IfOk result (λ zero. IsTrue zero
        ↔ HasValueZero (matrices model.now.modulus) (quiver_of quiver.now) (representation_of (quiver_of quiver.now) model.now) poly.now.terms) }
{
    let category = Matrices {
        modulus: model.modulus,
    };
    let value = value_of(alloc, &category, quiver, representation, poly, sig)?;
    let (source, target) = (
        representation.object(sig.source),
        representation.object(sig.target),
    );
    let zero = category.zero(alloc, source, target)?;
    Ok(category.same(&value, &zero))
}
