use crate::entry::Entry;

// A lent buffer and the place in it where the next write goes.
#[derive(Drop)]
pub struct Writer<'a> {
    out: &'a mut [u8],
    at: usize,
}

impl<'a> Writer<'a> {
    ghost use Rattle.std.specs.Prelude.{◌≡◌, ◌+◌, ◌*◌, ◌≤◌, length, replicate};
    ghost use Rattle.std.specs.List.{flat_map};
    ghost use Rattle.byte_writers.specs.Wrote.{Wrote};

    // Writes from `at` on.
    pub fn new(out: &'a mut [u8], at: usize) -> Self
        ensures start { result.at ≡ at }
        ensures bytes { result.out.now ≡ out.entry.now }
        ensures same_reference { result.out.ghost_name ≡ out.entry.ghost_name }
    {
        Writer { out, at }
    }

    // Where the next write goes.
    pub fn at(&self) -> usize
        ensures { result ≡ self.now.at }
    {
        self.at
    }

    pub(crate) fn put_bytes(&mut self, bytes: &[u8])
        requires { self.old.at + length bytes.now ≤ length self.old.out.now }
        ensures { Wrote self.old bytes.now self.new }
    {
        let next = self.at + bytes.len();
        self.out[self.at..next].copy_from_slice(bytes);
        self.at = next;
    }

    // Writes the entries one after another.
    pub fn put_all<T: Entry>(&mut self, entries: &[T])
        requires { self.old.at + T.wide * length entries.now ≤ length self.old.out.now }
        ensures { Wrote self.old (flat_map T.bytes entries.now) self.new }
    {
        for entry in entries {
            entry.put(self);
        }
    }

    // Writes one entry `count` times.
    pub fn put_repeated<T: Entry>(&mut self, count: usize, entry: T)
        requires { self.old.at + T.wide * count ≤ length self.old.out.now }
        ensures { Wrote self.old (flat_map T.bytes (replicate count entry)) self.new }
    {
        for _ in 0..count {
            entry.put(self);
        }
    }
}
