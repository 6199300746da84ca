// The corner atlas's search for a place, from edge to edge.
ghost use Rattle.std.specs.Prelude.{◌≡◌, ◌+◌, ◌≤◌};
ghost use Rattle.atlas.specs.Search.{past as past_one, past_all as past_each, edge_below};
ghost use Rattle.atlas.specs.Corner.{in_row as first_in_row, least_place as first_of_all};

use crate::rect::Rect;
use crate::square::Square;

// A search among rectangles of a square, for the place of a picture of `width` by `height`.
// Two numbers throughout: with one size each clause would say more, as `self.now.size.width self.now.size.height` in `past`.
#[derive(Clone, Copy)]
struct Search<'a> {
    slots: &'a [Option<Rect>],
    side: u32,
    width: u32,
    height: u32,
}

impl Search<'_> {
    // `x`, or the right edge of the slot's rectangle, if the picture meets that at `x`.
    fn past(&self, x: u64, y: u64, slot: Option<Rect>) -> u64
        ensures { result ≡ past_one y self.now.width self.now.height x slot }
    {
        match slot {
            Some(r) if r.meets(x, y, self.width, self.height) => r.right(),
            _ => x,
        }
    }

    // Where `x` comes to, past one rectangle after the other that the picture meets.
    fn past_all(&self, x: u64, y: u64) -> u64
        ensures { result ≡ past_each y self.now.width self.now.height x self.now.slots.now }
    {
        self.slots.iter().fold(x, |x, slot| self.past(x, y, *slot))
    }

    // The least lower edge that lies past `y`.
    fn next_edge(&self, y: u64) -> Option<u64>
        ensures { result ≡ edge_below y self.now.slots.now }
    {
        self.slots
            .iter()
            .filter_map(|slot| slot.map(|r| r.bottom()))
            .filter(|edge| y < *edge)
            .min()
    }

    // The first free place of the row `y`, from the left.
    fn in_row(&self, y: u64) -> Option<(u32, u32)>
        requires { y + self.now.height ≤ self.now.side }
        ensures { result ≡ first_in_row self.now.side self.now.slots.now self.now.width self.now.height y }
    {
        let last = u64::from(self.side.checked_sub(self.width)?);
        let mut x = 0;
        while x <= last {
            let next = self.past_all(x, y);
            if next == x {
                return Some((x as u32, y as u32));
            }
            x = next;
        }
        None
    }

    // The first free place of all, row by row. A row without one is followed by the next lower edge: up to there, what
    // is free stays free when it moves up.
    fn least_place(&self) -> Option<(u32, u32)>
        ensures { result ≡ first_of_all self.now.side self.now.slots.now self.now.width self.now.height }
    {
        let last = u64::from(self.side.checked_sub(self.height)?);
        let mut y = 0;
        while y <= last {
            let place = self.in_row(y);
            if place.is_some() {
                return place;
            }
            y = self.next_edge(y)?;
        }
        None
    }
}

// The first free place of all in a square. In the order of their left edges, one pass over the rectangles takes `x` to
// the first gap of a row.
#[tactic(auto, using(crate::proofs::Shuffles::same_least))]
pub(crate) fn first_free(square: &Square, width: u32, height: u32) -> Option<(u32, u32)>
    ensures { result ≡ first_of_all square.now.side square.now.slots width height }
{
    let mut slots = square.slots;
    slots.sort_unstable();
    let search = Search {
        slots: &slots,
        side: square.side,
        width,
        height,
    };
    search.least_place()
}
