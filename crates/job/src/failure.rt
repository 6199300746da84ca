ghost use Rattle.std.specs.Prelude.{◌≡◌};
ghost use Rattle.commands.specs.declared.reason.Reason.TheVariants.{NoMemory};
ghost use Rattle.job.specs.declared.failure.Failure.TheVariants.{Refused, Fault};
ghost use Rattle.job.specs.declared.failure.Refused.TheVariants.{Scene, Pack, View};

use commands::Reason;
use page::{Misplaced, PackRefusal, TooLong};
use records::Refusal;
use std::alloc::{AllocError, AllocFailed};
use std::fmt;
use thiserror::Error;

// A refusal, which a job answers with and goes on.
#[derive(Clone, Copy, Debug, PartialEq, Eq)]
pub enum Refused {
    Scene(Refusal),
    Pack(PackRefusal),
    View(Misplaced),
}

// Why a command was not done: it was refused, or it ends the job.
#[derive(Clone, Copy, Debug, PartialEq, Eq, Error)]
pub enum Failure {
    #[error(transparent)]
    Refused(Refused),
    #[error(transparent)]
    Fault(Reason),
}

impl fmt::Display for Refused {
    fn fmt<W: fmt::Write>(&self, f: &mut fmt::Formatter<W>) -> fmt::Result {
        let number = match self {
            Refused::Scene(refusal) => u32::from(*refusal),
            Refused::Pack(refusal) => u32::from(*refusal),
            Refused::View(misplaced) => u32::from(*misplaced),
        };
        write!(f, "refused {number}")?;
        match self {
            Refused::Pack(PackRefusal::TooLong(TooLong { needed })) => write!(
                f,
                " needed={needed}"
            ),
            _ => Ok(()),
        }
    }
}

impl From<Refusal> for Failure {
    ghost from_gives = { λ refusal f. f ≡ Refused (Scene refusal) };

    fn from(refusal: Refusal) -> Failure {
        Failure::Refused(Refused::Scene(refusal))
    }
}

impl From<PackRefusal> for Failure {
    ghost from_gives = { λ refusal f. f ≡ Refused (Pack refusal) };

    fn from(refusal: PackRefusal) -> Failure {
        Failure::Refused(Refused::Pack(refusal))
    }
}

impl From<Misplaced> for Failure {
    ghost from_gives = { λ misplaced f. f ≡ Refused (View misplaced) };

    fn from(misplaced: Misplaced) -> Failure {
        Failure::Refused(Refused::View(misplaced))
    }
}

impl From<Reason> for Failure {
    ghost from_gives = { λ reason f. f ≡ Fault reason };

    fn from(reason: Reason) -> Failure {
        Failure::Fault(reason)
    }
}

impl From<AllocError> for Failure {
    ghost from_gives = { λ _ f. f ≡ Fault NoMemory };

    fn from(_e: AllocError) -> Failure {
        Failure::Fault(Reason::NoMemory)
    }
}

impl<T: Drop> From<AllocFailed<T>> for Failure {
    ghost from_gives = { λ _ f. f ≡ Fault NoMemory };

    fn from(_e: AllocFailed<T>) -> Failure {
        Failure::Fault(Reason::NoMemory)
    }
}
