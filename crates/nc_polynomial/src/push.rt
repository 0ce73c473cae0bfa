// Terms at the end of a list. A term whose coefficient is zero is omitted, and its word is not copied.
ghost use Rattle.std.specs.Prelude.{◌≡◌, ◌++◌, [], OnOk};
ghost use Rattle.nc_polynomial.specs.Terms.{keep};

use lists::Listing;
use std::alloc::AllocError;
use word_core::Word;

// The list with a term at its end, unless the coefficient is zero.
pub(crate) fn push_nonzero(
    terms: &mut Listing<(i128, Word)>,
    coefficient: i128,
    word: Word,
) -> Result<(), AllocError>
    ensures { OnOk result (terms.new ≡ terms.old ++ keep coefficient word []) }
{
    if coefficient != 0 {
        terms.push((coefficient, word))?;
    }
    Ok(())
}

// The list with a term at its end, whose word is copied, unless the coefficient is zero.
pub(crate) fn push_copy(
    terms: &mut Listing<(i128, Word)>,
    coefficient: i128,
    word: &Word,
) -> Result<(), AllocError>
    ensures { OnOk result (terms.new ≡ terms.old ++ keep coefficient word.now []) }
{
    if coefficient != 0 {
        terms.push((coefficient, word.copy()?))?;
    }
    Ok(())
}

// The list with a term at its end, whose word is made of three, unless the coefficient is zero.
pub(crate) fn push_between(
    terms: &mut Listing<(i128, Word)>,
    coefficient: i128,
    left: &Word,
    word: &Word,
    right: &Word,
) -> Result<(), AllocError>
    ensures { OnOk result (terms.new ≡ terms.old ++ keep coefficient (left.now ++ (word.now ++ right.now)) []) }
{
    if coefficient != 0 {
        terms.push((coefficient, word.between(left, right)?))?;
    }
    Ok(())
}
