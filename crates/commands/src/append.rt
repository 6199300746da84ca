ghost use Rattle.commands.specs.Subject.{BeginsWithBoth};

use crate::command::Command;
use crate::fields::Fields;
use crate::reason::Reason;
use crate::subject::Subject;
use crate::verb::Verb;
use job_text::{Line, Name};
use math::Transform;
use std::fmt;

// `append`: appends another scene to a scene.
#[derive(Clone, Copy, Drop)]
pub struct AppendCommand {
    pub scene: Name,
    pub other: Name,
    pub transform: Option<Transform>,
}

// The scene that is appended to, and the other.
#[derive(Clone, Copy, Debug, PartialEq, Eq, Drop)]
pub struct BothNames {
    pub scene: Name,
    pub other: Name,
}

impl fmt::Display for BothNames {
    fn fmt<W: fmt::Write>(&self, f: &mut fmt::Formatter<W>) -> fmt::Result {
        write!(f, "{} {}", self.scene, self.other)
    }
}

impl Subject for BothNames {
    ghost begins_with = { BeginsWithBoth };

    fn read(line: &mut Line<'_>) -> Result<BothNames, Reason> {
        let scene = Name::read(line)?;
        let other = Name::read(line)?;
        Ok(BothNames { scene, other })
    }
}

impl Command for AppendCommand {
    const VERB: Verb = Verb::Append;

    const KEYS: &'static [&'static str] = &["transform"];

    type Subject = BothNames;

    ghost subject_of = { λ c. record { scene = c.scene; other = c.other } };

    fn from_fields(subject: BothNames, fields: &Fields<'_>) -> Result<AppendCommand, Reason> {
        let BothNames { scene, other } = subject;
        Ok(AppendCommand {
            scene,
            other,
            transform: fields.optional("transform")?,
        })
    }

    fn subject(&self) -> BothNames {
        BothNames {
            scene: self.scene,
            other: self.other,
        }
    }
}
