use crate::command::Command;
use crate::fields::Fields;
use crate::reason::Reason;
use crate::values::Number;
use crate::verb::Verb;
use job_text::Name;
use records::{Image, ImageSampler};

// `picture`: adds a picture.
#[derive(Clone, Copy, Drop)]
pub struct PictureCommand {
    pub scene: Name,
    pub image: Image,
    pub sampler: ImageSampler,
    pub alpha: f32,
}

fn read_image(fields: &Fields<'_>) -> Result<Image, Reason> {
    let id = fields.needed("id")?;
    let [Number(width), Number(height)]: [Number; 2] = fields.needed("size")?;
    let Number(format) = fields.needed("format")?;
    let Number(alpha_type) = fields.needed("alpha_type")?;
    Ok(Image {
        id,
        width,
        height,
        format,
        alpha_type,
    })
}

fn read_sampler(fields: &Fields<'_>) -> Result<ImageSampler, Reason> {
    let Number(x_extend) = fields.needed("x_extend")?;
    let Number(y_extend) = fields.needed("y_extend")?;
    let Number(quality) = fields.needed("quality")?;
    let alpha = fields.needed("sampler_alpha")?;
    Ok(ImageSampler {
        x_extend,
        y_extend,
        quality,
        alpha,
    })
}

impl Command for PictureCommand {
    const VERB: Verb = Verb::Picture;

    const KEYS: &'static [&'static str] = &[
        "id",
        "size",
        "format",
        "alpha_type",
        "quality",
        "x_extend",
        "y_extend",
        "sampler_alpha",
        "alpha",
    ];

    type Subject = Name;

    ghost subject_of = { λ c. c.scene };

    fn from_fields(scene: Name, fields: &Fields<'_>) -> Result<PictureCommand, Reason> {
        Ok(PictureCommand {
            scene,
            image: read_image(fields)?,
            sampler: read_sampler(fields)?,
            alpha: fields.needed("alpha")?,
        })
    }

    fn subject(&self) -> Name {
        self.scene
    }
}
