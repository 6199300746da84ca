ghost use Rattle.std.specs.Prelude.{◌≡◌, ◌/◌, ◌%◌};
ghost use Rattle.draw.specs.Tags.{info_size};

// Draw tag representation.
#[derive(Clone, Copy, Drop)]
pub struct DrawTag(pub u32);

impl DrawTag {
    // Color fill.
    pub const COLOR: u32 = 0x44;

    // Linear gradient fill.
    pub const LINEAR_GRADIENT: u32 = 0x114;

    // Image fill.
    pub const IMAGE: u32 = 0x28C;

    // End layer/clip.
    pub const END_CLIP: u32 = 0x21;

    // The size of the info buffer, in words, used by this tag.
    pub fn info_size(self) -> u32
        ensures { result ≡ info_size self.0 }
    {
        self.0 / 64 % 16
    }
}

// Path tag representation.
#[derive(Clone, Copy, Drop)]
pub struct PathTag(pub u8);

impl PathTag {
    // Path marker.
    pub const PATH: u8 = 0x10;

    // Transform marker.
    pub const TRANSFORM: u8 = 0x20;
}
