use std::ops::AddAssign;

// What the runs of a scene insert: the runs that have a session, and entries for each of the four streams.
#[derive(Clone, Copy, Debug, Default, PartialEq, Eq)]
pub struct Inserted {
    pub runs: u32,
    pub path_tags: u64,
    pub path_data: u64,
    pub transforms: u64,
    pub styles: u64,
}

impl AddAssign for Inserted {
    ghost use Rattle.std.specs.Prelude.{◌≡◌, ◌-◌, ◌^◌};
    ghost use Rattle.streams.specs.Count.{plus, AtMost};

    ghost can_add_assign = { λ a b. AtMost (2 ^ 32 - 1) (2 ^ 64 - 1) (plus a b) };

    ghost add_assign_gives = { λ a b r. r ≡ plus a b };

    fn add_assign(&mut self, other: Inserted) {
        self.runs += other.runs;
        self.path_tags += other.path_tags;
        self.path_data += other.path_data;
        self.transforms += other.transforms;
        self.styles += other.styles;
    }
}
