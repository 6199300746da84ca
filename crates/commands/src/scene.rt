use crate::command::Command;
use crate::fields::Fields;
use crate::reason::Reason;
use crate::verb::Verb;
use job_text::Name;
use records::Capacities;

// `scene`: makes an empty scene.
#[derive(Drop)]
pub struct SceneCommand {
    pub name: Name,
    pub spaces: Capacities,
}

const SPACE_IF_UNSAID: u64 = 4096;

const MOST_SPACE: u64 = 1_000_000;

// The space in one list.
fn space(fields: &Fields<'_>, key: &'static str) -> Result<usize, Reason> {
    let space: Option<u64> = fields.optional(key)?;
    Ok(space.unwrap_or(SPACE_IF_UNSAID).min(MOST_SPACE) as usize)
}

impl Command for SceneCommand {
    const VERB: Verb = Verb::Scene;

    const KEYS: &'static [&'static str] = &[
        "path_tags",
        "path_data",
        "draw_tags",
        "draw_data",
        "transforms",
        "styles",
        "patches",
        "color_stops",
        "glyphs",
        "glyph_runs",
    ];

    type Subject = Name;

    ghost subject_of = { λ c. c.name };

    fn from_fields(name: Name, fields: &Fields<'_>) -> Result<SceneCommand, Reason> {
        let spaces = Capacities {
            path_tags: space(fields, "path_tags")?,
            path_data: space(fields, "path_data")?,
            draw_tags: space(fields, "draw_tags")?,
            draw_data: space(fields, "draw_data")?,
            transforms: space(fields, "transforms")?,
            styles: space(fields, "styles")?,
            patches: space(fields, "patches")?,
            color_stops: space(fields, "color_stops")?,
            glyphs: space(fields, "glyphs")?,
            glyph_runs: space(fields, "glyph_runs")?,
        };
        Ok(SceneCommand { name, spaces })
    }

    fn subject(&self) -> Name {
        self.name
    }
}
