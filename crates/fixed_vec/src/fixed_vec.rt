ghost use Rattle.std.specs.Prelude.{◌≡◌, ◌<◌, ◌≤◌, [], ◌∷◌, ◌++◌, length, take, slice_set};

use std::alloc::AllocError;

// A list of at most `N` items. The kit's `ArrayVec` is not `Copy`, which rows and atlases are.
pub struct FixedVec<T, const N: usize> {
    len: usize,
    items: [T; N],
    pub ghost few: { len ≤ N },
}

// By hand: beside a ghost field `derive` refuses a generic `Clone`, and with a model in its place proofs about rows could not read `few`.
impl<T: Copy, const N: usize> Copy for FixedVec<T, N> {}

impl<T: Copy, const N: usize> Clone for FixedVec<T, N> {
    ghost is_clone = { λ v w. w ≡ v };

    ghost is_infallible = { λ v. Unit {0} };

    fn clone(&self) -> Result<Self, AllocError> {
        Ok(*self)
    }
}

impl<T: Copy, const N: usize> FixedVec<T, N> {
    ghost use Rattle.fixed_vec.specs.Items.{items_of};

    // No item.
    pub fn new() -> Self
    where
        T: Default,
        ensures { items_of result ≡ [] }
    {
        FixedVec {
            len: 0,
            items: [T::default(); N],
        }
    }

    pub fn as_slice(&self) -> &[T]
        ensures value { result.now ≡ items_of self.now }
        ensures few { length result.now ≤ N }
    {
        &self.items[..self.len]
    }

    pub fn push(&mut self, item: T)
        requires { length (items_of self.old) < N }
        ensures { items_of self.new ≡ items_of self.old ++ item ∷ [] }
    {
        self.items[self.len] = item;
        self.len += 1;
    }

    // Puts `item` in place of the one at `at`.
    pub fn set(&mut self, at: usize, item: T)
        requires { at < length (items_of self.old) }
        ensures { items_of self.new ≡ slice_set (items_of self.old) at item }
    {
        self.items[at] = item;
    }

    pub fn truncate(&mut self, len: usize)
        ensures { items_of self.new ≡ take len (items_of self.old) }
    {
        self.len = self.len.min(len);
    }
}

impl<T: Copy + Default, const N: usize> Default for FixedVec<T, N> {
    ghost use Rattle.fixed_vec.specs.Items.{items_of};

    ghost is_default = { λ v. items_of v ≡ [] };

    fn default() -> Self {
        Self::new()
    }
}
