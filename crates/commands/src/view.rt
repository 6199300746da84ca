use crate::command::Command;
use crate::fields::Fields;
use crate::reason::Reason;
use crate::stream::Stream;
use crate::verb::Verb;

// `view`: prints the checksum of a stream of the last page.
#[derive(Clone, Copy, Debug, PartialEq, Eq, Drop)]
pub struct ViewCommand {
    pub stream: Stream,
}

impl Command for ViewCommand {
    const VERB: Verb = Verb::View;

    const KEYS: &'static [&'static str] = &[];

    type Subject = Stream;

    ghost subject_of = { λ c. c.stream };

    fn from_fields(stream: Stream, _fields: &Fields<'_>) -> Result<ViewCommand, Reason> {
        Ok(ViewCommand { stream })
    }

    fn subject(&self) -> Stream {
        self.stream
    }
}
