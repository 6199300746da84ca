ghost use Rattle.std.specs.Prelude.{◌≡◌};
ghost use Rattle.page.specs.Plain.{question_of, refusal_of};
ghost use Rattle.page.specs.Parts.{misplaced_question};

use thiserror::Error;

// A page that is longer than any page may be, or than the buffer: the length that it needs.
#[derive(Clone, Copy, Debug, PartialEq, Eq, Error)]
#[error("the page needs {needed} bytes")]
pub struct TooLong {
    pub needed: u64,
}

// Why a page was not packed.
#[derive(Clone, Copy, Debug, PartialEq, Eq, Error)]
pub enum PackRefusal {
    #[error("the scene has something that is bound late")]
    LateBound,
    #[error(transparent)]
    TooLong(TooLong),
}

impl From<TooLong> for PackRefusal {
    ghost from_gives = { λ q r. r ≡ refusal_of q };

    fn from(q: TooLong) -> PackRefusal {
        PackRefusal::TooLong(q)
    }
}

// The number of the question that was answered with no.
impl From<PackRefusal> for u32 {
    ghost from_gives = { λ q n. n ≡ (question_of q).0 };

    fn from(q: PackRefusal) -> u32 {
        match q {
            PackRefusal::LateBound => 5,
            PackRefusal::TooLong(_) => 13,
        }
    }
}

// Why no reader was made: the bases fall somewhere, or leave the data.
#[derive(Clone, Copy, Debug, PartialEq, Eq, Error)]
#[error("the layout does not lie in the data")]
pub struct Misplaced;

// The number of the question that was answered with no.
impl From<Misplaced> for u32 {
    ghost from_gives = { λ q n. n ≡ misplaced_question q };

    fn from(_q: Misplaced) -> u32 {
        14
    }
}
