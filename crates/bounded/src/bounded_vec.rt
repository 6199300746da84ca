ghost use Rattle.std.specs.Prelude.{◌≤◌, length, vec_capacity};

use std::alloc::{AllocError, Global};

// Entries in the order in which they came, at most `limit`, all of whose memory is there from the start.
#[derive(Drop)]
pub struct BoundedVec<T> {
    items: Vec<T>,
    limit: usize,
    ghost within: { length items.items ≤ limit },
    ghost reserved: { limit ≤ vec_capacity items },
    ghost most: { limit ≤ 1000000 },
}

impl<T> BoundedVec<T> {
    ghost use Rattle.std.specs.Prelude.{◌≡◌, [], ◌∷◌, IfOk};
    ghost use Rattle.bounded.specs.Held.{items as items_of, len as len_of, room, Fits, Fresh, Extends};

    // An empty list with room for `limit` entries; more than 1,000,000 counts as that.
    pub fn make(heap: Global, limit: usize) -> Result<BoundedVec<T>, AllocError>
        ensures { IfOk result (λ l. Fresh l limit) }
    {
        let limit = limit.min(1_000_000);
        let items = Vec::with_capacity(heap, limit)?;
        Ok(BoundedVec { items, limit })
    }

    pub fn len(&self) -> usize
        ensures value { result ≡ len_of self.now }
        ensures most { result ≤ 1000000 }
    {
        self.items.len()
    }

    // Whether `more` entries fit after those that are there.
    pub fn has_room(&self, more: usize) -> bool
        ensures { result ≡ room self.now more }
    {
        more <= self.limit - self.items.len()
    }

    pub fn as_slice(&self) -> &[T]
        ensures value { result.now ≡ items_of self.now }
        ensures len { length result.now ≡ len_of self.now }
        ensures most { length result.now ≤ 1000000 }
    {
        self.items.as_slice()
    }

    pub fn push(&mut self, x: T)
        requires { Fits self.old 1 }
        ensures { Extends self.old self.new (x ∷ []) }
    {
        self.items.push_reserved(x);
    }
}

impl<T: Copy> BoundedVec<T> {
    ghost use Rattle.bounded.specs.Held.{items as items_of, len as len_of, Fits, Extends};

    pub fn extend_from_slice(&mut self, more: &[T])
        requires { Fits self.old (length more.now) }
        ensures { Extends self.old self.new more.now }
    {
        let _ = self.items.extend_from_slice(more);
    }

    // The entries of another list, after its own.
    pub fn append(&mut self, other: &BoundedVec<T>)
        requires { Fits self.old (len_of other.now) }
        ensures { Extends self.old self.new (items_of other.now) }
    {
        self.extend_from_slice(other.as_slice());
    }
}
