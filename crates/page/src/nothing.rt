ghost use Rattle.page.specs.Nothing.{no_supply, no_late};

use arrayvec::ArrayVec;
use streams::LateWords;
use supply::{GlyphSupply, Outline, SessionKey};

// The supply of a scene without runs.
#[derive(Drop)]
pub(crate) struct NoSupply;

impl GlyphSupply for NoSupply {
    ghost meaning = { λ _. no_supply };

    fn session(&self, _key: SessionKey) -> bool {
        false
    }

    fn outline(&self, _key: SessionKey, _id: u32) -> Option<Outline<'_>> {
        None
    }
}

// The late-bound words of a scene without patches.
#[derive(Drop)]
pub(crate) struct NoLate;

impl LateWords for NoLate {
    ghost late = { λ _. no_late };

    fn words(&self, _patch: usize) -> ArrayVec<u32, 2> {
        ArrayVec::new()
    }
}
