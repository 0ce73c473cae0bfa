//! The category with one object and two arrows, the integers modulo 2.

ghost use Rattle.category_laws.specs.Parity.{parity, parity_laws, parity_involution_laws};

use crate::category::{Category, Involutive, Preadditive};
use std::alloc::{AllocError, Global};

/// One object, the two truth values as arrows, "and" as composition and "exclusive or" as sum.
#[derive(Clone, Copy)]
pub struct Parity;

impl Preadditive for Parity {
    type Object = ();

    type Arrow = bool;

    ghost structure = { λ _. parity };

    ghost laws = { λ _. parity_laws };
}

impl Category for Parity {
    fn source(&self, _alloc: Global, _arrow: &bool) -> Result<(), AllocError> {
        Ok(())
    }

    fn target(&self, _alloc: Global, _arrow: &bool) -> Result<(), AllocError> {
        Ok(())
    }

    fn identity(&self, _alloc: Global, _object: &()) -> Result<bool, AllocError> {
        Ok(true)
    }

    fn zero(&self, _alloc: Global, _source: &(), _target: &()) -> Result<bool, AllocError> {
        Ok(false)
    }

    fn add(&self, _alloc: Global, left: &bool, right: &bool) -> Result<bool, AllocError> {
        Ok(*left != *right)
    }

    fn negate(&self, _alloc: Global, arrow: &bool) -> Result<bool, AllocError> {
        Ok(*arrow)
    }

    fn compose(&self, _alloc: Global, after: &bool, first: &bool) -> Result<bool, AllocError> {
        Ok(*after && *first)
    }

    fn same(&self, left: &bool, right: &bool) -> bool {
        *left == *right
    }
}

impl Involutive for Parity {
    ghost involution = { λ _ a. a };

    ghost involution_laws = { λ _. parity_involution_laws };

    fn adjoint(&self, _alloc: Global, arrow: &bool) -> Result<bool, AllocError> {
        Ok(*arrow)
    }
}
