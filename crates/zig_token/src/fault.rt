// Why a text has no list of tokens.
ghost use Rattle.std.specs.Prelude.{◌≡◌};
ghost use Rattle.zig_token.specs.declared.fault.LexFault.TheVariants.{OutOfMemory};

use std::alloc::AllocFailed;
use thiserror::Error;

/// The first fault of a text, reading from the left, with its place: the byte at which it lies,
/// counted from 0.
#[derive(Clone, Copy, Debug, PartialEq, Eq, Error)]
pub enum LexFault {
    /// A byte that may not stand here.
    #[error("bad byte at {at}")]
    BadByte { at: u32 },
    /// An escape that is none; the place is its backslash.
    #[error("bad escape at {at}")]
    BadEscape { at: u32 },
    /// Quotes that no quote closes on their line; the place is the opening quote.
    #[error("string at {at} is not closed")]
    OpenString { at: u32 },
    /// A number that is none, or that is above 2^127 - 1; the place is its first byte.
    #[error("bad number at {at}")]
    BadNumber { at: u32 },
    /// The list could not grow.
    #[error("out of memory")]
    OutOfMemory,
}

impl<T: Drop> From<AllocFailed<T>> for LexFault {
    ghost from_gives = { λ _ e. e ≡ OutOfMemory };

    fn from(_e: AllocFailed<T>) -> LexFault {
        LexFault::OutOfMemory
    }
}
