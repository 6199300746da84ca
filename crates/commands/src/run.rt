use crate::command::Command;
use crate::fields::Fields;
use crate::reason::Reason;
use crate::values::Number;
use crate::verb::Verb;
use job_text::Name;
use records::{Glyph, RunAttributes};

// `run`: adds a run of glyphs.
#[derive(Drop)]
pub struct RunCommand {
    pub scene: Name,
    pub attributes: RunAttributes,
    pub glyphs: Vec<Glyph>,
}

fn read_attributes(fields: &Fields<'_>) -> Result<RunAttributes, Reason> {
    let Number(font) = fields.needed("font")?;
    let Number(style) = fields.needed("style")?;
    Ok(RunAttributes {
        font,
        style,
        font_size: fields.needed("size")?,
        transform: fields.needed("transform")?,
        glyph_transform: fields.optional("glyph_transform")?,
        brush_transform: fields.optional("brush_transform")?,
    })
}

impl Command for RunCommand {
    const VERB: Verb = Verb::Run;

    const KEYS: &'static [&'static str] = &[
        "font",
        "style",
        "size",
        "transform",
        "glyph_transform",
        "brush_transform",
        "glyphs",
    ];

    type Subject = Name;

    ghost subject_of = { λ c. c.scene };

    fn from_fields(scene: Name, fields: &Fields<'_>) -> Result<RunCommand, Reason> {
        Ok(RunCommand {
            scene,
            attributes: read_attributes(fields)?,
            glyphs: fields.needed("glyphs")?,
        })
    }

    fn subject(&self) -> Name {
        self.scene
    }
}
