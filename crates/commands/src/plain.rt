use crate::command::Command;
use crate::fields::Fields;
use crate::reason::Reason;
use crate::verb::Verb;
use job_text::Name;

// `plain`: packs a scene without anything that is bound late, into a buffer of so many bytes.
#[derive(Clone, Copy, Drop)]
pub struct PlainCommand {
    pub scene: Name,
    pub buffer: u64,
}

impl Command for PlainCommand {
    const VERB: Verb = Verb::Plain;

    const KEYS: &'static [&'static str] = &["buffer"];

    type Subject = Name;

    ghost subject_of = { λ c. c.scene };

    fn from_fields(scene: Name, fields: &Fields<'_>) -> Result<PlainCommand, Reason> {
        let buffer = fields.needed("buffer")?;
        Ok(PlainCommand { scene, buffer })
    }

    fn subject(&self) -> Name {
        self.scene
    }
}
