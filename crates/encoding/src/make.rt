ghost use Rattle.std.specs.Prelude.{◌≡◌, IfOk};
ghost use Rattle.encoding.specs.Scene.{meaning, empty, room, limited};
ghost use Rattle.encoding.specs.Made.{FreshResources};

use crate::encoding::{Encoding, Resources};
use bounded::BoundedVec;
use records::{Capacities, Counts};
use std::alloc::{AllocError, Global};

impl Resources {
    fn make(heap: Global, want: Capacities) -> Result<Resources, AllocError>
        ensures { IfOk result (λ s. FreshResources s want) }
    {
        Ok(Resources {
            patches: BoundedVec::make(heap, want.patches)?,
            color_stops: BoundedVec::make(heap, want.color_stops)?,
            glyphs: BoundedVec::make(heap, want.glyphs)?,
            glyph_runs: BoundedVec::make(heap, want.glyph_runs)?,
        })
    }
}

impl Encoding {
    // Creates an empty encoding with that room in each list. No later call needs memory.
    pub fn make(heap: Global, want: Capacities) -> Result<Encoding, AllocError>
        ensures { IfOk result (λ s. (meaning s ≡ empty) × (room s ≡ limited want)) }
    {
        Ok(Encoding {
            path_tags: BoundedVec::make(heap, want.path_tags)?,
            path_data: BoundedVec::make(heap, want.path_data)?,
            draw_tags: BoundedVec::make(heap, want.draw_tags)?,
            draw_data: BoundedVec::make(heap, want.draw_data)?,
            transforms: BoundedVec::make(heap, want.transforms)?,
            styles: BoundedVec::make(heap, want.styles)?,
            resources: Resources::make(heap, want)?,
            counts: Counts::default(),
            flags: 0,
        })
    }
}
