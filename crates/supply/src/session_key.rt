ghost use Rattle.std.specs.Prelude.{◌≡◌};
ghost use Rattle.supply.specs.Key.{key_of};

use records::RunAttributes;

// What glyphs are drawn in: a font, a style of outline and a size.
#[derive(Clone, Copy, Debug)]
pub struct SessionKey {
    pub font: u32,
    pub style: u32,
    pub size: f32,
}

impl From<&RunAttributes> for SessionKey {
    ghost from_gives = { λ a r. r ≡ key_of a.now };

    fn from(attributes: &RunAttributes) -> SessionKey {
        SessionKey {
            font: attributes.font,
            style: attributes.style,
            size: attributes.font_size,
        }
    }
}
