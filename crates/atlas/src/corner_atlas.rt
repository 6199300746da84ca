// The corner atlas.
use crate::atlas::Atlas;
use crate::rect::Rect;
use crate::search;
use crate::square::Square;

// An atlas that gives each picture the place of least y, and there of least x.
#[derive(Clone, Copy)]
pub struct CornerAtlas {
    square: Square,
}

impl Atlas for CornerAtlas {
    ghost use Rattle.std.specs.Prelude.{◌≡◌};
    ghost use Rattle.atlas.specs.Corner.{corner, TakesLeast};
    ghost use Rattle.atlas.specs.CornerView.{cornered};
    ghost use Rattle.atlas.specs.CornerLaw.{corner_laws, state_sound};

    ghost kind = { corner };

    ghost state = { cornered };

    ghost laws = { corner_laws };

    ghost valid = { state_sound };

    fn new(side: u32) -> CornerAtlas {
        CornerAtlas {
            square: Square::new(side),
        }
    }

    fn side(&self) -> u32 {
        self.square.side
    }

    fn next_handle(&self) -> u32 {
        self.square.next_handle()
    }

    // The free place of least y, and there of least x.
    #[tactic(auto, using(crate::specs::CornerLaw::takes_found))]
    fn place(&mut self, width: u32, height: u32) -> Option<(u32, u32)>
        ensures answer { result ≡ corner.gives (cornered self.old) width height }
        ensures after { cornered self.new ≡ corner.placed (cornered self.old) width height }
        ensures least { TakesLeast (cornered self.old) width height result }
    {
        let handle = self.square.handle_for(width, height)?;
        let (x, y) = search::first_free(&self.square, width, height)?;
        self.square.put(
            handle,
            Rect {
                x,
                y,
                width,
                height,
            },
        );
        Some((x, y))
    }

    fn free(&mut self, handle: u32) {
        self.square.clear(handle);
    }

    fn duplicate(&self) -> CornerAtlas {
        *self
    }
}
