// What a form gives, and why it may give nothing.
ghost use Rattle.std.specs.Prelude.{◌≡◌};
ghost use Rattle.sema_body.specs.declared.halt.Halt.TheVariants.{OutOfMemory};
ghost use Rattle.sema_body.specs.Faults.{halt_of};

use air_form::AirRef;
use std::alloc::AllocError;
use trace_log::{Diagnostic, Question};
use type_form::{Index, InternFault};

/// What an expression gives.
#[derive(Clone, Copy, Debug, PartialEq, Eq)]
pub enum Operand {
    /// A value that is known at comptime.
    Known(Index),
    /// At run time, what the expression or the place of this type has that is at a node of the body.
    Run { ty: Index, at: AirRef },
}

/// Why a form gives nothing.
#[derive(Debug, Drop)]
pub enum Halt {
    /// `return` leaves the function at comptime, with this result.
    Returns(Operand),
    /// A diagnostic, which ends the unit.
    Wrong(Diagnostic),
    /// A question has no answer yet.
    Needs(Question),
    /// A question was answered that a unit failed.
    Failed,
    /// The interner's shard of this number takes no more rows.
    Full { shard: u32 },
    OutOfMemory,
}

impl From<AllocError> for Halt {
    ghost from_gives = { λ _ e. e ≡ OutOfMemory };

    fn from(_error: AllocError) -> Halt {
        Halt::OutOfMemory
    }
}

impl From<InternFault> for Halt {
    ghost from_gives = { λ f e. e ≡ halt_of f };

    fn from(fault: InternFault) -> Halt {
        match fault {
            InternFault::Full { shard } => Halt::Full { shard },
            InternFault::OutOfMemory => Halt::OutOfMemory,
        }
    }
}
