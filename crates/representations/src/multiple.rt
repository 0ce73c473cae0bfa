//! Integer multiples of the arrows of a category.

ghost use Rattle.std.specs.Prelude.{◌≡◌, IfOk};
ghost use Rattle.definitions.specs.Category.{IsArrow};
ghost use Rattle.definitions.specs.Representation.{natural_multiple, multiple};

use category_laws::Category;
use std::alloc::{AllocError, Global};

// A copy of the arrow: its sum with zero.
pub(crate) fn copy_of<C: Category>(
    alloc: Global,
    category: &C,
    arrow: &C::Arrow,
) -> Result<C::Arrow, AllocError>
    requires { (C.structure category.now).is_arrow arrow.now }
    ensures { IfOk result (λ a. a ≡ arrow.now) }
{
    let source = category.source(alloc, arrow)?;
    let target = category.target(alloc, arrow)?;
    let zero = category.zero(alloc, &source, &target)?;
    category.add(alloc, arrow, &zero)
}

// n times the arrow, by doubling.
fn natural_multiple_of<C: Category>(
    alloc: Global,
    category: &C,
    n: u128,
    arrow: &C::Arrow,
) -> Result<C::Arrow, AllocError>
    requires { (C.structure category.now).is_arrow arrow.now }
    ensures ends { IfOk result (λ a. IsArrow (C.structure category.now) ((C.structure category.now).source arrow.now)
        ((C.structure category.now).target arrow.now) a) }
    ensures value { IfOk result (λ a. a ≡ natural_multiple (C.structure category.now) n arrow.now) }
{
    if n == 0 {
        let source = category.source(alloc, arrow)?;
        let target = category.target(alloc, arrow)?;
        return category.zero(alloc, &source, &target);
    }
    let half = natural_multiple_of(alloc, category, n / 2, arrow)?;
    let double = category.add(alloc, &half, &half)?;
    if n % 2 == 0 {
        Ok(double)
    } else {
        let more = category.add(alloc, arrow, &double)?;
        Ok(more)
    }
}

// n times the arrow: the arrow itself where n is 1, as coefficients mostly are.
fn times<C: Category>(
    alloc: Global,
    category: &C,
    n: u128,
    arrow: C::Arrow,
) -> Result<C::Arrow, AllocError>
    requires { (C.structure category.now).is_arrow arrow }
    ensures ends { IfOk result (λ a. IsArrow (C.structure category.now) ((C.structure category.now).source arrow) ((C.structure category.now).target arrow) a) }
    ensures value { IfOk result (λ a. a ≡ natural_multiple (C.structure category.now) n arrow) }
{
    if n == 1 {
        return Ok(arrow);
    }
    natural_multiple_of(alloc, category, n, &arrow)
}

// The integer multiple of the arrow.
pub(crate) fn multiple_of<C: Category>(
    alloc: Global,
    category: &C,
    integer: i128,
    arrow: C::Arrow,
) -> Result<C::Arrow, AllocError>
    requires { (C.structure category.now).is_arrow arrow }
    ensures ends { IfOk result (λ a. IsArrow (C.structure category.now) ((C.structure category.now).source arrow) ((C.structure category.now).target arrow) a) }
    ensures value { IfOk result (λ a. a ≡ multiple (C.structure category.now) integer arrow) }
{
    let natural = times(alloc, category, integer.unsigned_abs(), arrow)?;
    if integer < 0 {
        let negative = category.negate(alloc, &natural)?;
        Ok(negative)
    } else {
        Ok(natural)
    }
}
