//! Runs over files at each limit and one past it, which are put together from parts. What a test costs grows with the square of its
//! rows.
use crate::limit_rows::{MAP_LIMITS, MODELS, NAMED, ROWS, SIZES, STATED};
use crate::telling::tell_limits;

#[test]
fn names_are_limited(rt: HostRuntime) {
    tell_limits(&rt, rt.alloc(), NAMED);
}

#[test]
fn statements_are_limited(rt: HostRuntime) {
    tell_limits(&rt, rt.alloc(), STATED);
}

#[test]
fn rows_are_limited(rt: HostRuntime) {
    tell_limits(&rt, rt.alloc(), ROWS);
}

#[test]
fn models_are_limited(rt: HostRuntime) {
    tell_limits(&rt, rt.alloc(), MODELS);
}

#[test]
fn maps_are_limited_by_the_language(rt: HostRuntime) {
    tell_limits(&rt, rt.alloc(), MAP_LIMITS);
}

#[test]
fn files_are_read_up_to_their_limits(rt: HostRuntime) {
    tell_limits(&rt, rt.alloc(), SIZES);
}
