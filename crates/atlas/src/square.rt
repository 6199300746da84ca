// The square of an atlas, with the live rectangles in it.
ghost use Rattle.std.specs.Prelude.{◌≡◌, ℕ, ◌^◌, ◌<◌, min, true, false, replicate, is_none, is_some, MatchOption, Some, None, position, slice_set};
ghost use Rattle.atlas.specs.Rects.{Inside, Apart};
ghost use Rattle.atlas.specs.Slots.{SquareSound, slot, vacant, allowed};
ghost use Rattle.atlas.specs.Shelf.{depth, reach as reaching, furthest, standing as standing_of};
ghost use Rattle.atlas.specs.declared.rect.Rect.{Rect};

use crate::rect::Rect;

// Up to 256 live rectangles, none of which shares a point with another; the index of its slot is a rectangle's handle.
#[derive(Clone, Copy)]
pub(crate) struct Square {
    pub(crate) side: u32,
    pub(crate) slots: [Option<Rect>; 256],
    ghost sound: { SquareSound side slots },
}

impl Square {
    // An empty square of that side; more than 8,192 counts as that.
    pub(crate) fn new(side: u32) -> Square
        ensures side { result.side ≡ min side 8192 }
        ensures empty { result.slots ≡ replicate 256 None }
    {
        Square {
            side: side.min(8192),
            slots: [None; 256],
        }
    }

    // The index of the first empty slot.
    fn first_empty(&self) -> Option<usize>
        ensures { result ≡ position is_none self.now.slots }
    {
        self.slots.iter().position(|slot| slot.is_none())
    }

    // The handle of the next picture: the first empty slot, or 256 if none is empty.
    // A number even then, and no `Option`: the trait's public call promises one.
    #[tactic(auto, using(crate::specs::SlotFacts::vacant_or))]
    pub(crate) fn next_handle(&self) -> u32
        ensures { result ≡ vacant self.now.slots }
    {
        self.first_empty().unwrap_or(self.slots.len()) as u32
    }

    // The handle for a picture of that size, if it may be tried: no side is 0, and a slot is empty.
    pub(crate) fn handle_for(&self, width: u32, height: u32) -> Option<usize>
        ensures { MatchOption result (allowed self.now.slots width height ≡ false)
            (λ handle. (allowed self.now.slots width height ≡ true) × (handle ≡ vacant self.now.slots)) }
    {
        if width == 0 || height == 0 {
            return None;
        }
        self.first_empty()
    }

    // Whether that handle has a live rectangle.
    pub(crate) fn is_live(&self, handle: u32) -> bool
        ensures { result ≡ is_some (slot self.now.slots handle) }
    {
        self.slots
            .get(handle as usize)
            .is_some_and(|slot| slot.is_some())
    }

    // The right edge of the furthest live picture whose top is at `y`, 0 if there is none.
    pub(crate) fn far_end(&self, y: u32) -> u64
        ensures { result ≡ furthest y self.now.slots }
    {
        self.slots
            .iter()
            .map(|slot| reach(*slot, y))
            .max()
            .unwrap_or(0)
    }

    // How many of the shelves stand when the empty ones at the end have gone.
    pub(crate) fn standing(&self, shelves: &[u32]) -> usize
        requires { depth shelves.now < 2 ^ 32 }
        ensures { result ≡ standing_of self.now.slots 0 shelves.now }
    {
        let mut end = bottom(shelves);
        let mut stack = shelves;
        while let Some((last, upper)) = stack.split_last() {
            end -= *last;
            if self.far_end(end) > 0 {
                break;
            }
            stack = upper;
        }
        stack.len()
    }

    // Makes a picture live that lies inside and shares no point with the live rectangles.
    pub(crate) fn put(&mut self, handle: usize, picture: Rect)
        requires slot { handle < 256 }
        requires inside { Inside self.old.side picture }
        requires apart { (i : ℕ) (r : Rect) → slot self.old.slots i ≡ Some r → Apart picture r }
        ensures side { self.new.side ≡ self.old.side }
        ensures slots { self.new.slots ≡ slice_set self.old.slots handle (Some picture) }
    {
        self.slots[handle] = Some(picture);
    }

    // Takes back the place under that handle, if it has one.
    pub(crate) fn clear(&mut self, handle: u32)
        ensures side { self.new.side ≡ self.old.side }
        ensures slots { self.new.slots ≡ slice_set self.old.slots handle None }
    {
        let handle = handle as usize;
        if handle < self.slots.len() {
            self.slots[handle] = None;
        }
    }
}

// How deep the shelves reach.
pub(crate) fn bottom(shelves: &[u32]) -> u32
    requires { depth shelves.now < 2 ^ 32 }
    ensures { result ≡ depth shelves.now }
{
    shelves.iter().sum()
}

// How far the slot's picture reaches to the right, if its top is at `y`.
fn reach(slot: Option<Rect>, y: u32) -> u64
    ensures { result ≡ reaching y slot }
{
    match slot {
        Some(r) if r.y == y => r.right(),
        _ => 0,
    }
}
