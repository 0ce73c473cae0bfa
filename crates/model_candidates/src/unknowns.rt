//! The entries that are solved for, and values of them.
ghost use Rattle.std.specs.Prelude.{◌≡◌, ◌≤◌, length, IfOk};
ghost use Rattle.std.specs.List.{range_with_len};
ghost use Rattle.model_candidates.specs.Limits.{entry_limit};
ghost use Rattle.model_candidates.specs.Unknowns.{set_count, filled, picked, unit_values, unknown_numbers};

use lists::Listing;
use std::alloc::{AllocError, Global};

/// How many entries are solved for.
pub(crate) fn unknown_count(solved: &[bool]) -> u32
    requires { length solved.now ≤ entry_limit }
    ensures { result ≡ set_count solved.now }
{
    let mut count = 0;
    for flag in solved {
        count += u32::from(*flag);
    }
    count
}

/// The drawn values, with these in their order in the entries that are solved for.
pub(crate) fn filled(
    alloc: Global,
    solved: &[bool],
    drawn: &[u32],
    values: &[u32],
) -> Result<Listing<u32>, AllocError>
    requires one_each { length drawn.now ≡ length solved.now }
    requires one_for_each { length values.now ≡ set_count solved.now }
    ensures { IfOk result (λ all. all ≡ filled solved.now drawn.now values.now) }
{
    let mut all = Listing::with_room(alloc, solved.len())?;
    let mut next = 0;
    for place in 0..solved.len() {
        let value = if solved[place] {
            let given = values[next];
            next += 1;
            given
        } else {
            drawn[place]
        };
        all.push(value)?;
    }
    Ok(all)
}

/// The values of the entries that are solved for.
pub(crate) fn picked(
    alloc: Global,
    solved: &[bool],
    values: &[u32],
) -> Result<Listing<u32>, AllocError>
    requires one_each { length values.now ≡ length solved.now }
    ensures { IfOk result (λ chosen. chosen ≡ picked solved.now values.now) }
{
    let mut chosen = Listing::new(alloc);
    for place in 0..solved.len() {
        if solved[place] {
            chosen.push(values[place])?;
        }
    }
    Ok(chosen)
}

/// So many values, 1 at this place and 0 at all others: no place past the end has one.
pub(crate) fn unit_values(alloc: Global, count: u32, place: u32) -> Result<Listing<u32>, AllocError>
    ensures { IfOk result (λ values. values ≡ unit_values count place) }
{
    let mut values = Listing::with_room(alloc, count as usize)?;
    for k in 0..count {
        values.push(u32::from(k == place))?;
    }
    Ok(values)
}

/// For each entry the number of its unknown, counted from 0, and that of all unknowns where it isn't solved for.
pub(crate) fn unknown_numbers(
    alloc: Global,
    solved: &[bool],
    unknowns: u32,
) -> Result<Listing<u32>, AllocError>
    requires { unknowns ≡ set_count solved.now }
    ensures { IfOk result (λ numbers. numbers ≡ unknown_numbers solved.now) }
{
    let others = vec![in alloc; unknowns; solved.len()]?;
    let own = numbers_before(alloc, unknowns)?;
    filled(alloc, solved, others.as_slice(), own.as_slice())
}

/// The numbers before this one, from 0 on.
pub(crate) fn numbers_before(alloc: Global, count: u32) -> Result<Vec<u32>, AllocError>
    ensures { IfOk result (λ numbers. numbers.items ≡ range_with_len 0 count) }
{
    (0..count).collect(alloc)
}
