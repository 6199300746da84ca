use crate::command::Command;
use crate::fields::Fields;
use crate::reason::Reason;
use crate::verb::Verb;
use job_text::Name;

// `show`: prints a scene.
#[derive(Clone, Copy, Debug, PartialEq, Eq, Drop)]
pub struct ShowCommand {
    pub scene: Name,
}

impl Command for ShowCommand {
    const VERB: Verb = Verb::Show;

    const KEYS: &'static [&'static str] = &[];

    type Subject = Name;

    ghost subject_of = { λ c. c.scene };

    fn from_fields(scene: Name, _fields: &Fields<'_>) -> Result<ShowCommand, Reason> {
        Ok(ShowCommand { scene })
    }

    fn subject(&self) -> Name {
        self.scene
    }
}
