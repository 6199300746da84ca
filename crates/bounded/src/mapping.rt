ghost use Rattle.std.specs.Prelude.{◌≡◌, ℕ, ◌+◌, ◌<◌, ◌++◌, map, length, slice_index_or};
ghost use Rattle.bounded.specs.Held.{items as items_of, len as len_of, Fits, Extends};

use crate::bounded_vec::BoundedVec;

// What an entry of one list becomes in another. A trait and no closure: its `image` is one function for all entries,
// where of a closure each call would have to be shown to give it.
pub trait Mapping<T, U> {
    // the entries that it may be asked of
    ghost fit: { Self → T → Type 0 };

    ghost image: { Self → T → U };

    fn map(&self, x: &T) -> U
        requires { fit self.now x.now }
        ensures { result ≡ image self.now x.now };
}

// The images of some entries, after those that are there.
pub fn extend_mapped<T, U, M: Mapping<T, U>>(to: &mut BoundedVec<U>, from: &[T], by: &M)
    requires room { Fits to.old (length from.now) }
    requires fits { (k : ℕ) (d : T) → k < length from.now → M.Mapping.fit by.now (slice_index_or from.now k d) }
    ensures extended { Extends to.old to.new (map (M.Mapping.image by.now) from.now) }
    ensures len { len_of to.new ≡ len_of to.old + length from.now }
{
    for x in from {
        to.push(by.map(x));
    }
}

// The images of another list's entries, after its own.
pub fn append_mapped<T, U, M: Mapping<T, U>>(to: &mut BoundedVec<U>, from: &BoundedVec<T>, by: &M)
    requires room { Fits to.old (len_of from.now) }
    requires fits { (k : ℕ) (d : T) → k < length (items_of from.now) → M.Mapping.fit by.now (slice_index_or (items_of from.now) k d) }
    ensures extended { Extends to.old to.new (map (M.Mapping.image by.now) (items_of from.now)) }
    ensures len { len_of to.new ≡ len_of to.old + len_of from.now }
{
    extend_mapped(to, from.as_slice(), by);
}
