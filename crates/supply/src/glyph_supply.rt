ghost use Rattle.std.specs.Prelude.{◌≡◌};
ghost use Rattle.std.specs.Option.{option_map};
ghost use Rattle.supply.specs.Meaning.{Meaning, Short, shown};
ghost use Rattle.supply.specs.Shown.{shape_of};

use crate::outline::Outline;
use crate::session_key::SessionKey;

// Sessions and outlines by font, style and size. A question changes nothing.
pub trait GlyphSupply {
    ghost meaning: { Self → Meaning };

    fn session(&self, key: SessionKey) -> bool
        ensures { result ≡ (meaning self.now).session key.font key.style key.size };

    fn outline(&self, key: SessionKey, id: u32) -> Option<Outline<'_>>
        ensures value { option_map shape_of result ≡ (meaning self.now).outline key.font key.style key.size id }
        ensures short { Short (shown (option_map shape_of result)) };
}
