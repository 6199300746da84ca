use thiserror::Error;

// Why a scene call was refused.
#[derive(Clone, Copy, Debug, PartialEq, Eq, Hash, Error)]
pub enum Refusal {
    #[error("a number that was given is infinite or no number")]
    NotFinite,
    #[error("there are too many stops, or a value lies outside its range")]
    OutOfRange,
    #[error("a list that would grow has no space")]
    Full,
    #[error("a count would pass 1000000")]
    TooMany,
}

// The number of the question that was answered with no.
impl From<Refusal> for u32 {
    ghost use Rattle.std.specs.Prelude.{◌≡◌};
    ghost use Rattle.records.specs.Numbers.{question_of};

    ghost from_gives = { λ refusal n. n ≡ question_of refusal };

    fn from(refusal: Refusal) -> u32 {
        match refusal {
            Refusal::NotFinite => 1,
            Refusal::OutOfRange => 2,
            Refusal::Full => 3,
            Refusal::TooMany => 4,
        }
    }
}
