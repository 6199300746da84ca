// What an atlas is.
ghost use Rattle.std.specs.Prelude.{◌≡◌};
ghost use Rattle.atlas.specs.Kind.{AtlasKind, AtlasLaws};

// A square in which pictures are given places, at most 256 at a time. What an atlas means is the state it is in:
// the state alone decides what each call answers and which state comes next.
pub trait Atlas: Sized {
    // the states of its kind, what each answers and what follows it
    ghost kind: { AtlasKind };

    ghost state: { Self → kind.carrier };

    // An empty atlas of that side; more than 8,192 counts as that.
    fn new(side: u32) -> Self
        ensures { state result ≡ kind.empty side };

    fn side(&self) -> u32
        ensures { result ≡ kind.side (state self.now) };

    // The handle under which the next placed picture will be live.
    fn next_handle(&self) -> u32
        ensures { result ≡ kind.fresh (state self.now) };

    // Gives a picture its place, x and y, if there is one.
    fn place(&mut self, width: u32, height: u32) -> Option<(u32, u32)>
        ensures answer { result ≡ kind.gives (state self.old) width height }
        ensures after { state self.new ≡ kind.placed (state self.old) width height };

    // Takes back the place under that handle, if it has one.
    fn free(&mut self, handle: u32)
        ensures { state self.new ≡ kind.freed (state self.old) handle };

    // A separate atlas in the same state. No supertrait `Copy` in its place: that would ask more of a type that is an atlas.
    fn duplicate(&self) -> Self
        ensures { state result ≡ state self.now };

    ghost laws: { AtlasLaws kind };

    ghost valid: { (a : Self) → kind.sound (state a) };
}
