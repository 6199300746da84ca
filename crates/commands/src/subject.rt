ghost use Rattle.std.specs.Prelude.{◌≡◌, ℕ, true, false, List, IfOk, MatchResult};
ghost use Rattle.job_text.specs.Names.{name_text};
ghost use Rattle.job_text.specs.Words.{first_word, after_word};
ghost use Rattle.commands.specs.Subject.{BeginsWithName, BeginsWithStream};

use crate::reason::Reason;
use crate::stream::Stream;
use job_text::{Line, Name};
use std::fmt;

// What a command is about, as the line of its answer says after the verb.
pub trait Subject: fmt::Display + Copy {
    // A line that begins with what is about this subject.
    ghost begins_with: { List ℕ → Self → Type 0 };

    // Reads what follows the verb in a line, up to the fields.
    fn read(line: &mut Line<'_>) -> Result<Self, Reason>
        ensures { IfOk result (begins_with line.old.rest.now) };
}

impl Subject for Name {
    ghost begins_with = { BeginsWithName };

    fn read(line: &mut Line<'_>) -> Result<Name, Reason>
        ensures name { MatchResult result (BeginsWithName line.old.rest.now) (λ _. name_text (first_word line.old.rest.now) ≡ false) }
        ensures after { line.new.rest.now ≡ after_word line.old.rest.now }
    {
        let word = line.next().ok_or(Reason::MissingName)?;
        Ok(Name::try_from(word)?)
    }
}

impl Subject for Stream {
    ghost begins_with = { BeginsWithStream };

    fn read(line: &mut Line<'_>) -> Result<Stream, Reason> {
        let word = line.next().ok_or(Reason::MissingName)?;
        Stream::try_from(word)
    }
}
