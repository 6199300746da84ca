use crate::verb::Verb;
use job_text::{Name, NameError};
use std::alloc::{AllocError, AllocFailed};
use thiserror::Error;

// What is wrong with a line of a job.
#[derive(Clone, Copy, Debug, PartialEq, Eq, Drop, Error)]
pub enum Reason {
    #[error("the line is longer than 16777216 bytes")]
    LineTooLong,
    #[error("the job has more than 1000000 lines")]
    TooManyLines,
    #[error("there is no such command")]
    UnknownCommand,
    #[error("this command is not built yet: {0}")]
    NotBuilt(Verb),
    #[error("a name is missing")]
    MissingName,
    #[error(transparent)]
    WrongName(#[from] NameError),
    #[error("a word after the names is no field `key=value`")]
    NoField,
    #[error("the command has no such field")]
    UnknownField,
    #[error("this field is given twice: {0}")]
    FieldTwice(&'static str),
    #[error("this field is missing: {0}")]
    MissingField(&'static str),
    #[error("the value of this field has a wrong form: {0}")]
    WrongValue(&'static str),
    #[error("there is no such stream")]
    UnknownStream,
    #[error("this name is made twice: {0}")]
    MadeTwice(Name),
    #[error("there is no scene of this name: {0}")]
    NoScene(Name),
    #[error("this scene is appended to itself: {0}")]
    AppendedToItself(Name),
    #[error("no page has been packed yet")]
    NoPage,
    #[error("there is no memory for it")]
    NoMemory,
}

impl From<AllocError> for Reason {
    fn from(_e: AllocError) -> Reason {
        Reason::NoMemory
    }
}

impl<T: Drop> From<AllocFailed<T>> for Reason {
    fn from(_e: AllocFailed<T>) -> Reason {
        Reason::NoMemory
    }
}
