//! The product of two categories: pairs of objects and pairs of arrows.

ghost use Rattle.category_laws.specs.Pair.{pair, pair_laws, pair_involution_laws};

use crate::category::{Category, Involutive, Preadditive};
use std::alloc::{AllocError, Global};

/// The category of the pairs of two categories.
#[derive(Drop)]
pub struct Pair<C, D>(pub C, pub D);

impl<C: Preadditive, D: Preadditive> Preadditive for Pair<C, D> {
    type Object = (C::Object, D::Object);

    type Arrow = (C::Arrow, D::Arrow);

    ghost structure = { λ c. pair (C.structure c.0) (D.structure c.1) };

    ghost laws = { λ c. pair_laws (C.structure c.0) (D.structure c.1) (C.laws c.0) (D.laws c.1) };
}

impl<C: Category, D: Category> Category for Pair<C, D> {
    fn source(
        &self,
        alloc: Global,
        arrow: &(C::Arrow, D::Arrow),
    ) -> Result<(C::Object, D::Object), AllocError> {
        let first = self.0.source(alloc, &arrow.0)?;
        let second = self.1.source(alloc, &arrow.1)?;
        Ok((first, second))
    }

    fn target(
        &self,
        alloc: Global,
        arrow: &(C::Arrow, D::Arrow),
    ) -> Result<(C::Object, D::Object), AllocError> {
        let first = self.0.target(alloc, &arrow.0)?;
        let second = self.1.target(alloc, &arrow.1)?;
        Ok((first, second))
    }

    fn identity(
        &self,
        alloc: Global,
        object: &(C::Object, D::Object),
    ) -> Result<(C::Arrow, D::Arrow), AllocError> {
        let first = self.0.identity(alloc, &object.0)?;
        let second = self.1.identity(alloc, &object.1)?;
        Ok((first, second))
    }

    fn zero(
        &self,
        alloc: Global,
        source: &(C::Object, D::Object),
        target: &(C::Object, D::Object),
    ) -> Result<(C::Arrow, D::Arrow), AllocError> {
        let first = self.0.zero(alloc, &source.0, &target.0)?;
        let second = self.1.zero(alloc, &source.1, &target.1)?;
        Ok((first, second))
    }

    fn add(
        &self,
        alloc: Global,
        left: &(C::Arrow, D::Arrow),
        right: &(C::Arrow, D::Arrow),
    ) -> Result<(C::Arrow, D::Arrow), AllocError> {
        let first = self.0.add(alloc, &left.0, &right.0)?;
        let second = self.1.add(alloc, &left.1, &right.1)?;
        Ok((first, second))
    }

    fn negate(
        &self,
        alloc: Global,
        arrow: &(C::Arrow, D::Arrow),
    ) -> Result<(C::Arrow, D::Arrow), AllocError> {
        let first = self.0.negate(alloc, &arrow.0)?;
        let second = self.1.negate(alloc, &arrow.1)?;
        Ok((first, second))
    }

    fn compose(
        &self,
        alloc: Global,
        after: &(C::Arrow, D::Arrow),
        first: &(C::Arrow, D::Arrow),
    ) -> Result<(C::Arrow, D::Arrow), AllocError> {
        let left = self.0.compose(alloc, &after.0, &first.0)?;
        let right = self.1.compose(alloc, &after.1, &first.1)?;
        Ok((left, right))
    }

    fn same(&self, left: &(C::Arrow, D::Arrow), right: &(C::Arrow, D::Arrow)) -> bool {
        self.0.same(&left.0, &right.0) && self.1.same(&left.1, &right.1)
    }
}

impl<C: Involutive, D: Involutive> Involutive for Pair<C, D> {
    ghost involution = { λ c a. (C.involution c.0 a.0, D.involution c.1 a.1) };

    ghost involution_laws = { λ c. pair_involution_laws (C.structure c.0) (D.structure c.1) (C.involution_laws c.0) (D.involution_laws c.1) };

    fn adjoint(
        &self,
        alloc: Global,
        arrow: &(C::Arrow, D::Arrow),
    ) -> Result<(C::Arrow, D::Arrow), AllocError> {
        let first = self.0.adjoint(alloc, &arrow.0)?;
        let second = self.1.adjoint(alloc, &arrow.1)?;
        Ok((first, second))
    }
}
