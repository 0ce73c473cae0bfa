//! Preadditive and involutive categories, as traits whose laws each category proves.

ghost use Rattle.std.specs.Prelude.{◌≡◌, IfOk, IsTrue, ◌↔◌};
ghost use Rattle.definitions.specs.Category.{Structure, PreadditiveLaws, InvolutionLaws};

use std::alloc::{AllocError, Global};

/// A type whose values are preadditive categories: only definitions and laws.
pub trait Preadditive {
    /// What the objects of the category are made of.
    type Object;

    /// What its arrows are made of.
    type Arrow;

    /// Which values are objects and arrows, the ends of arrows, and the operations.
    ghost structure: { Self → Structure Self.Object Self.Arrow };

    /// What each `impl` proves.
    ghost laws: { (c : Self) → PreadditiveLaws (structure c) };
}

/// A preadditive category with a call for each of its operations.
pub trait Category: Preadditive<Object: Drop, Arrow: Drop> {
    /// The source of an arrow.
    fn source(&self, alloc: Global, arrow: &Self::Arrow) -> Result<Self::Object, AllocError>
        requires { (Self.structure self.now).is_arrow arrow.now }
        ensures { IfOk result (λ x. x ≡ (Self.structure self.now).source arrow.now) };

    /// The target of an arrow.
    fn target(&self, alloc: Global, arrow: &Self::Arrow) -> Result<Self::Object, AllocError>
        requires { (Self.structure self.now).is_arrow arrow.now }
        ensures { IfOk result (λ x. x ≡ (Self.structure self.now).target arrow.now) };

    /// The identity of an object.
    fn identity(&self, alloc: Global, object: &Self::Object) -> Result<Self::Arrow, AllocError>
        requires { (Self.structure self.now).is_object object.now }
        ensures { IfOk result (λ x. x ≡ (Self.structure self.now).identity object.now) };

    /// The zero arrow between two objects.
    fn zero(
        &self,
        alloc: Global,
        source: &Self::Object,
        target: &Self::Object,
    ) -> Result<Self::Arrow, AllocError>
        requires source_is_object { (Self.structure self.now).is_object source.now }
        requires target_is_object { (Self.structure self.now).is_object target.now }
        ensures { IfOk result (λ x. x ≡ (Self.structure self.now).zero source.now target.now) };

    /// The sum of two arrows with the same ends.
    fn add(
        &self,
        alloc: Global,
        left: &Self::Arrow,
        right: &Self::Arrow,
    ) -> Result<Self::Arrow, AllocError>
        requires left_is_arrow { (Self.structure self.now).is_arrow left.now }
        requires right_is_arrow { (Self.structure self.now).is_arrow right.now }
        requires same_source { (Self.structure self.now).source left.now ≡ (Self.structure self.now).source right.now }
        requires same_target { (Self.structure self.now).target left.now ≡ (Self.structure self.now).target right.now }
        ensures { IfOk result (λ x. x ≡ (Self.structure self.now).add left.now right.now) };

    /// The negative of an arrow.
    fn negate(&self, alloc: Global, arrow: &Self::Arrow) -> Result<Self::Arrow, AllocError>
        requires { (Self.structure self.now).is_arrow arrow.now }
        ensures { IfOk result (λ x. x ≡ (Self.structure self.now).negate arrow.now) };

    /// The composite of two arrows that fit: `after` is applied after `first`.
    fn compose(
        &self,
        alloc: Global,
        after: &Self::Arrow,
        first: &Self::Arrow,
    ) -> Result<Self::Arrow, AllocError>
        requires after_is_arrow { (Self.structure self.now).is_arrow after.now }
        requires first_is_arrow { (Self.structure self.now).is_arrow first.now }
        requires fits { (Self.structure self.now).source after.now ≡ (Self.structure self.now).target first.now }
        ensures { IfOk result (λ x. x ≡ (Self.structure self.now).compose after.now first.now) };

    /// Whether two arrows are the same.
    fn same(&self, left: &Self::Arrow, right: &Self::Arrow) -> bool
        requires left_is_arrow { (Self.structure self.now).is_arrow left.now }
        requires right_is_arrow { (Self.structure self.now).is_arrow right.now }
        ensures { IsTrue result ↔ (left.now ≡ right.now) };
}

/// A category with an involution, such as matrices with their transposes.
pub trait Involutive: Category {
    /// The adjoint of an arrow.
    ghost involution: { Self → Self.Arrow → Self.Arrow };

    /// The adjoint of an arrow, from its target to its source.
    fn adjoint(&self, alloc: Global, arrow: &Self::Arrow) -> Result<Self::Arrow, AllocError>
        requires { (Self.structure self.now).is_arrow arrow.now }
        ensures { IfOk result (λ x. x ≡ involution self.now arrow.now) };

    /// What each `impl` proves.
    ghost involution_laws: { (c : Self) → InvolutionLaws (Self.structure c) (involution c) };
}
