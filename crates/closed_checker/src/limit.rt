//! The limit of the steps of a reduction.
ghost use Rattle.std.specs.Prelude.{◌≡◌};
ghost use Rattle.closed_checker.specs.Limits.{step_limit};

/// The greatest number of steps of one reduction.
pub const STEP_LIMIT: u32 = 1_000_000;

// This limit, as a number that proofs don't count to.
pub(crate) fn step_limit() -> u32
    ensures { result ≡ step_limit }
{
    STEP_LIMIT
}
