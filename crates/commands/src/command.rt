ghost use Rattle.std.specs.Prelude.{◌≡◌, IfOk};

use crate::fields::Fields;
use crate::reason::Reason;
use crate::subject::Subject;
use crate::verb::Verb;
use job_text::Line;
use std::alloc::Global;

// A command of a job.
pub trait Command: Sized {
    const VERB: Verb;

    // The keys of the fields that it may have.
    const KEYS: &'static [&'static str];

    type Subject: Subject;

    ghost subject_of: { Self → Self.Subject };

    // Reads what follows the verb in a line.
    final fn read(heap: Global, line: &mut Line<'_>) -> Result<Self, Reason>
        ensures { IfOk result (λ c. Self.Subject.begins_with line.old.rest.now (subject_of c)) }
    {
        let subject = Self::Subject::read(line)?;
        let fields = Fields::read(heap, line, Self::KEYS)?;
        Self::from_fields(subject, &fields)
    }

    fn from_fields(subject: Self::Subject, fields: &Fields<'_>) -> Result<Self, Reason>
        ensures { IfOk result (λ c. subject_of c ≡ subject) };

    fn subject(&self) -> Self::Subject
        ensures { result ≡ subject_of self.now };
}
