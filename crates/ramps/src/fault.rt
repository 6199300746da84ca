ghost use Rattle.std.specs.Prelude.{◌≡◌};

use thiserror::Error;

// Why a page has no rows for all its gradients.
#[derive(Clone, Copy, Debug, PartialEq, Eq, Hash, Drop, Error)]
pub enum RampFault {
    // the gradient of that patch finds none of 96 rows
    #[error("no row is left for the gradient of patch {patch}")]
    Full { patch: usize },
}

// The number of the question that was answered with no.
impl From<RampFault> for u32 {
    ghost use Rattle.ramps.specs.Fault.{question_of};

    ghost from_gives = { λ fault number. number ≡ (question_of fault).0 };

    fn from(fault: RampFault) -> u32 {
        match fault {
            RampFault::Full { .. } => 10,
        }
    }
}
