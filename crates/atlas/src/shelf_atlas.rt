// The shelf atlas, and what is always true of it.
ghost use Rattle.std.specs.Prelude.{◌≡◌, ◌≤◌, true, length};
ghost use Rattle.fixed_vec.specs.Items.{items_of};
ghost use Rattle.atlas.specs.Shelf.{depth, all_tall, all_stand, standing, on_shelf, new_shelf, chosen};

use crate::atlas::Atlas;
use crate::rect::Rect;
use crate::square::{Square, bottom};
use fixed_vec::FixedVec;

// An atlas that sets pictures side by side on shelves, each as tall as the picture that opened it.
#[derive(Clone, Copy)]
pub struct ShelfAtlas {
    square: Square,
    shelves: FixedVec<u32, 8192>,
    ghost tall: { all_tall (items_of shelves) ≡ true },
    ghost within: { depth (items_of shelves) ≤ square.side },
    ghost held: { all_stand (items_of shelves) square.slots ≡ true },
    ghost trim: { standing square.slots 0 (items_of shelves) ≡ length (items_of shelves) },
}

impl ShelfAtlas {
    // The place on the shelf at `y`, if it is tall enough with the width left.
    fn place_on(&self, y: u32, shelf: u32, width: u32, height: u32) -> Option<(u32, u32)>
        ensures { result ≡ on_shelf self.now.square.side self.now.square.slots width height y shelf }
    {
        let last = u64::from(self.square.side.checked_sub(width)?);
        // A shelf that is too low is passed over before its pictures are looked at.
        if height > shelf {
            return None;
        }
        let x = self.square.far_end(y);
        if x <= last { Some((x as u32, y)) } else { None }
    }

    // The place on a new shelf at `y`, if that fits.
    fn place_below(&self, y: u32, width: u32, height: u32) -> Option<(u32, u32)>
        ensures { result ≡ new_shelf self.now.square.side width height y }
    {
        let side = self.square.side;
        if width <= side && u64::from(y) + u64::from(height) <= u64::from(side) {
            Some((0, y))
        } else {
            None
        }
    }

    // The place on the first shelf that will do, else on a new one below.
    fn choose(&self, width: u32, height: u32) -> Option<(u32, u32)>
        ensures { result ≡ chosen self.now.square.side self.now.square.slots width height 0 (items_of self.now.shelves) }
    {
        let mut y = 0;
        for shelf in self.shelves.as_slice() {
            let place = self.place_on(y, *shelf, width, height);
            if place.is_some() {
                return place;
            }
            y += *shelf;
        }
        self.place_below(y, width, height)
    }
}

impl Atlas for ShelfAtlas {
    ghost use Rattle.std.specs.Prelude.{◌≡◌};
    ghost use Rattle.atlas.specs.Shelf.{shelf, TakesFirst, Vanished};
    ghost use Rattle.atlas.specs.ShelfView.{shelved};
    ghost use Rattle.atlas.specs.ShelfLaw.{shelf_laws};
    ghost use Rattle.atlas.specs.ShelfCode.{state_sound};

    ghost kind = { shelf };

    ghost state = { shelved };

    ghost laws = { shelf_laws };

    ghost valid = { state_sound };

    fn new(side: u32) -> ShelfAtlas {
        ShelfAtlas {
            square: Square::new(side),
            shelves: FixedVec::new(),
        }
    }

    fn side(&self) -> u32 {
        self.square.side
    }

    fn next_handle(&self) -> u32 {
        self.square.next_handle()
    }

    // The place past the furthest picture of the first shelf that is tall enough with the width left, else the left
    // end of a new shelf below.
    #[tactic(auto, using(crate::specs::ShelfFirst::takes_chosen))]
    fn place(&mut self, width: u32, height: u32) -> Option<(u32, u32)>
        ensures answer { result ≡ shelf.gives (shelved self.old) width height }
        ensures after { shelved self.new ≡ shelf.placed (shelved self.old) width height }
        ensures first { TakesFirst (shelved self.old) width height result }
    {
        let handle = self.square.handle_for(width, height)?;
        let (x, y) = self.choose(width, height)?;
        if y == bottom(self.shelves.as_slice()) {
            self.shelves.push(height);
        }
        self.square.put(
            handle,
            Rect {
                x,
                y,
                width,
                height,
            },
        );
        Some((x, y))
    }

    // An empty shelf goes too when none lies below it, and then the empty one above it.
    #[tactic(auto, using(crate::specs::ShelfFacts::standing_few))]
    fn free(&mut self, handle: u32)
        ensures after { shelved self.new ≡ shelf.freed (shelved self.old) handle }
        ensures vanished { Vanished (shelved self.old) (shelved self.new) }
    {
        if self.square.is_live(handle) {
            // Only with the shelves that are left is the emptied square an atlas again.
            let mut square = self.square;
            square.clear(handle);
            let count = square.standing(self.shelves.as_slice());
            self.square = square;
            self.shelves.truncate(count);
        }
    }

    fn duplicate(&self) -> ShelfAtlas {
        *self
    }
}
