ghost use Rattle.std.specs.Prelude.{◌≡◌, ◌≢◌};
ghost use Rattle.job_text.specs.declared.flaw.Flaw.TheVariants.{Form, Memory};
ghost use Rattle.hex.specs.declared.error.FromHexError.TheVariants.{OutOfMemory};

use hex::FromHexError;
use std::alloc::{AllocError, AllocFailed};

// Why a value was not read.
#[derive(Clone, Copy, Debug, PartialEq, Eq, Drop)]
pub enum Flaw {
    Form,
    Memory,
}

impl From<AllocError> for Flaw {
    ghost from_gives = { λ _ r. r ≡ Memory };

    fn from(_e: AllocError) -> Flaw {
        Flaw::Memory
    }
}

impl<T: Drop> From<AllocFailed<T>> for Flaw {
    ghost from_gives = { λ _ r. r ≡ Memory };

    fn from(_e: AllocFailed<T>) -> Flaw {
        Flaw::Memory
    }
}

impl From<FromHexError> for Flaw {
    ghost from_gives = { λ e r. (e ≡ OutOfMemory → r ≡ Memory) × (e ≢ OutOfMemory → r ≡ Form) };

    fn from(e: FromHexError) -> Flaw {
        match e {
            FromHexError::OutOfMemory => Flaw::Memory,
            _ => Flaw::Form,
        }
    }
}
