//! What can be wrong with a declaration of an object or a map.

ghost use Rattle.std.specs.Prelude.{◌≡◌};
ghost use Rattle.lists.specs.declared.stop.Stop.TheVariants as stop;

use lists::Stop;
use thiserror::Error;

/// The fault of a declaration.
#[derive(Clone, Copy, Debug, Error)]
pub enum QuiverFault {
    /// An object or a map has this name.
    #[error("the name is declared")]
    DoubleName,
    /// There are already as many objects, or maps, as the limit allows.
    #[error("there are {limit} already")]
    TooMany { limit: u32 },
    /// A map that is to be its own adjoint has two different ends.
    #[error("the source and the target differ")]
    NotSquare,
}

impl From<QuiverFault> for Stop<QuiverFault> {
    ghost from_gives = { λ fault stopped. stopped ≡ stop.Fault fault };

    fn from(fault: QuiverFault) -> Stop<QuiverFault> {
        Stop::Fault(fault)
    }
}
