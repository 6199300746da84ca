use crate::command::Command;
use crate::fields::Fields;
use crate::reason::Reason;
use crate::values::Number;
use crate::verb::Verb;
use draw::ColorStop;
use job_text::Name;
use records::DrawLinearGradient;

// `gradient`: adds a linear gradient, or a solid colour where it has fewer than two stops.
#[derive(Drop)]
pub struct GradientCommand {
    pub scene: Name,
    pub gradient: DrawLinearGradient,
    pub alpha: f32,
    // A number, as `encode_linear_gradient` takes it and refuses it.
    pub extend: u32,
    pub stops: Vec<ColorStop>,
}

impl Command for GradientCommand {
    const VERB: Verb = Verb::Gradient;

    const KEYS: &'static [&'static str] = &["p0", "p1", "stops", "alpha", "extend"];

    type Subject = Name;

    ghost subject_of = { λ c. c.scene };

    fn from_fields(scene: Name, fields: &Fields<'_>) -> Result<GradientCommand, Reason> {
        let p0 = fields.needed("p0")?;
        let p1 = fields.needed("p1")?;
        let alpha = fields.needed("alpha")?;
        let Number(extend) = fields.needed("extend")?;
        let stops = fields.needed("stops")?;
        Ok(GradientCommand {
            scene,
            gradient: DrawLinearGradient { p0, p1 },
            alpha,
            extend,
            stops,
        })
    }

    fn subject(&self) -> Name {
        self.scene
    }
}
