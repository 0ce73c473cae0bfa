//! The values of the entries in a candidate.
ghost use Rattle.std.specs.Prelude.{◌≡◌, ◌+◌, ◌*◌, ◌%◌, ◌<◌, map, IfOk};
ghost use Rattle.std.specs.List.{range_with_len};
ghost use Rattle.model_candidates.specs.Candidates.{digit, word_of_stream};

use lists::Listing;
use rand_core::utils::NextWord;
use rand_pcg::Lcg64Xsh32;
use std::alloc::{AllocError, Global};

/// So many digits of the candidate's number in the base of the modulus, the lowest first.
pub(crate) fn digits_of(
    alloc: Global,
    modulus: u32,
    count: u32,
    candidate: u32,
) -> Result<Listing<u32>, AllocError>
    requires { 0 < modulus }
    ensures { IfOk result (λ values. values ≡ map (digit modulus candidate) (range_with_len 0 count)) }
{
    let mut values = Listing::with_room(alloc, count as usize)?;
    let mut rest = candidate;
    for place in 0..count {
        values.push(rest % modulus)?;
        rest /= modulus;
    }
    Ok(values)
}

/// So many draws modulo the modulus, which are the candidate's for the shape with this number and a seed.
pub(crate) fn draws_of(
    alloc: Global,
    modulus: u32,
    count: u32,
    number: u32,
    seed: u64,
    candidate: u32,
) -> Result<Listing<u32>, AllocError>
    requires { 0 < modulus }
    ensures { IfOk result (λ values. values
        ≡ map (λ j. word_of_stream seed number (candidate * count + j) % modulus) (range_with_len 0 count)) }
{
    let mut stream = Lcg64Xsh32::new(seed, u64::from(number));
    stream.advance(u64::from(candidate) * u64::from(count));
    let mut values = Listing::with_room(alloc, count as usize)?;
    for place in 0..count {
        values.push(stream.next_word() % modulus)?;
    }
    Ok(values)
}
