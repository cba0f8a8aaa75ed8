// Why functions and data have no module.
ghost use Rattle.std.specs.Prelude.{◌≡◌};
ghost use Rattle.wasm_link.specs.declared.fault.LinkFault.TheVariants.{OutOfMemory};

use crate::named::Place;
use std::alloc::AllocError;
use thiserror::Error;
use zw_base::{Bytes, Seq};

/// Why functions and data have no module. The causes are tried in this order.
#[derive(Debug, Drop, Error)]
pub enum LinkFault {
    /// The least name under which two things are exported, the memory's among them, and where the
    /// functions of that name are declared, in the order of their spellings.
    #[error("an export name stands twice")]
    DuplicateExport { name: Bytes, places: Seq<Place> },
    /// The data, or one item of it, takes more than 67,108,864 bytes.
    #[error("the data takes more than 67,108,864 bytes")]
    DataTooLarge,
    /// There are more than 65,535 error names, or the module has more than 268,435,456 bytes.
    #[error("the module has more than 268,435,456 bytes or 65,535 error names")]
    ModuleTooLarge,
    #[error("out of memory")]
    OutOfMemory,
}

impl From<AllocError> for LinkFault {
    ghost from_gives = { λ _ e. e ≡ OutOfMemory };

    fn from(_e: AllocError) -> LinkFault {
        LinkFault::OutOfMemory
    }
}
