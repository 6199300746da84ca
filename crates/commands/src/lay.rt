use crate::command::Command;
use crate::fields::Fields;
use crate::reason::Reason;
use crate::values::Number;
use crate::verb::Verb;
use job_text::Name;
use math::Transform;
use records::{Counts, Streams, Style};

// `lay`: adds entries to the six streams, adds to the counts and sets the flags.
#[derive(Drop)]
pub struct LayCommand {
    pub scene: Name,
    pub counts: Counts,
    pub flags: u32,
    path_data: Vec<u32>,
    draw_tags: Vec<u32>,
    draw_data: Vec<u32>,
    path_tags: Vec<u8>,
    transforms: Vec<Transform>,
    styles: Vec<Style>,
}

fn count(fields: &Fields<'_>, key: &'static str) -> Result<u32, Reason> {
    let Number(count) = fields.optional(key)?.unwrap_or(Number(0));
    Ok(count)
}

fn read_counts(fields: &Fields<'_>) -> Result<Counts, Reason> {
    Ok(Counts {
        n_paths: count(fields, "paths")?,
        n_path_segments: count(fields, "segments")?,
        n_clips: count(fields, "clips")?,
        n_open_clips: count(fields, "open_clips")?,
    })
}

impl Command for LayCommand {
    const VERB: Verb = Verb::Lay;

    const KEYS: &'static [&'static str] = &[
        "path_tags",
        "path_data",
        "draw_tags",
        "draw_data",
        "transforms",
        "styles",
        "paths",
        "segments",
        "clips",
        "open_clips",
        "flags",
    ];

    type Subject = Name;

    ghost subject_of = { λ c. c.scene };

    fn from_fields(scene: Name, fields: &Fields<'_>) -> Result<LayCommand, Reason> {
        // In this order: the first wrong value is the one reported.
        Ok(LayCommand {
            scene,
            counts: read_counts(fields)?,
            flags: fields.optional("flags")?.unwrap_or(0),
            path_data: fields.list("path_data")?,
            draw_tags: fields.list("draw_tags")?,
            draw_data: fields.list("draw_data")?,
            path_tags: fields.list("path_tags")?,
            transforms: fields.list("transforms")?,
            styles: fields.list("styles")?,
        })
    }

    fn subject(&self) -> Name {
        self.scene
    }
}

impl LayCommand {
    pub fn streams(&self) -> Streams<'_> {
        Streams {
            path_tags: self.path_tags.as_slice(),
            path_data: self.path_data.as_slice(),
            draw_tags: self.draw_tags.as_slice(),
            draw_data: self.draw_data.as_slice(),
            transforms: self.transforms.as_slice(),
            styles: self.styles.as_slice(),
        }
    }
}
