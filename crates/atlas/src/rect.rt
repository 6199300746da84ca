// The rectangles of an atlas.
ghost use Rattle.std.specs.Prelude.{◌≡◌, ◌+◌, ◌^◌, ◌<◌};
ghost use Rattle.atlas.specs.Rects.{rect, meets as meeting};

// A rectangle of the atlas; x runs to the right and y down.
#[derive(Clone, Copy, PartialEq, Eq, PartialOrd, Ord)]
pub struct Rect {
    pub x: u32,
    pub y: u32,
    pub width: u32,
    pub height: u32,
}

impl Rect {
    // The column past its right edge.
    pub(crate) fn right(self) -> u64
        ensures is { result ≡ self.x + self.width }
        ensures small { result < 2 ^ 33 }
    {
        u64::from(self.x) + u64::from(self.width)
    }

    // The row past its lower edge.
    pub(crate) fn bottom(self) -> u64
        ensures is { result ≡ self.y + self.height }
        ensures small { result < 2 ^ 33 }
    {
        u64::from(self.y) + u64::from(self.height)
    }

    // Whether it shares a point with a picture of `width` by `height` at `x` and `y`.
    pub(crate) fn meets(self, x: u64, y: u64, width: u32, height: u32) -> bool
        ensures { result ≡ meeting (rect x y width height) self }
    {
        x < self.right()
            && u64::from(self.x) < x + u64::from(width)
            && y < self.bottom()
            && u64::from(self.y) < y + u64::from(height)
    }
}
