//! The opposite of a category: its arrows are reversed.

ghost use Rattle.category_laws.specs.Opposite.{opposite, opposite_laws, opposite_involution_laws};

use crate::category::{Category, Involutive, Preadditive};
use std::alloc::{AllocError, Global};

/// The category with all arrows reversed.
#[derive(Drop)]
pub struct Opposite<C>(pub C);

impl<C: Preadditive> Preadditive for Opposite<C> {
    type Object = C::Object;

    type Arrow = C::Arrow;

    ghost structure = { λ c. opposite (C.structure c.0) };

    ghost laws = { λ c. opposite_laws (C.laws c.0) };
}

impl<C: Category> Category for Opposite<C> {
    fn source(&self, alloc: Global, arrow: &C::Arrow) -> Result<C::Object, AllocError> {
        self.0.target(alloc, arrow)
    }

    fn target(&self, alloc: Global, arrow: &C::Arrow) -> Result<C::Object, AllocError> {
        self.0.source(alloc, arrow)
    }

    fn identity(&self, alloc: Global, object: &C::Object) -> Result<C::Arrow, AllocError> {
        self.0.identity(alloc, object)
    }

    fn zero(
        &self,
        alloc: Global,
        source: &C::Object,
        target: &C::Object,
    ) -> Result<C::Arrow, AllocError> {
        self.0.zero(alloc, target, source)
    }

    fn add(
        &self,
        alloc: Global,
        left: &C::Arrow,
        right: &C::Arrow,
    ) -> Result<C::Arrow, AllocError> {
        self.0.add(alloc, left, right)
    }

    fn negate(&self, alloc: Global, arrow: &C::Arrow) -> Result<C::Arrow, AllocError> {
        self.0.negate(alloc, arrow)
    }

    fn compose(
        &self,
        alloc: Global,
        after: &C::Arrow,
        first: &C::Arrow,
    ) -> Result<C::Arrow, AllocError> {
        self.0.compose(alloc, first, after)
    }

    fn same(&self, left: &C::Arrow, right: &C::Arrow) -> bool {
        self.0.same(left, right)
    }
}

impl<C: Involutive> Involutive for Opposite<C> {
    ghost involution = { λ c. C.involution c.0 };

    ghost involution_laws = { λ c. opposite_involution_laws (C.involution_laws c.0) };

    fn adjoint(&self, alloc: Global, arrow: &C::Arrow) -> Result<C::Arrow, AllocError> {
        self.0.adjoint(alloc, arrow)
    }
}
