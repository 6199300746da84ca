ghost use Rattle.std.specs.Prelude.{◌≡◌, ◌<◌, ◌≤◌, ◌&&◌, [], map, length, nat_lt, IfSome, slice_index_or};
ghost use Rattle.std.specs.List.{All};
ghost use Rattle.std.specs.Option.{option_or};
ghost use Rattle.fixed_vec.specs.Items.{items_of};
ghost use Rattle.ramps.specs.Laws.{Distinct};
ghost use Rattle.ramps.specs.View.{row_of};

use crate::fault::RampFault;
use crate::key::Key;
use draw::StopBits;
use fixed_vec::FixedVec;
use records::Patch;

// Rows up to here are retained from page to page.
const RETAINED_COUNT: usize = 64;

pub(crate) const MAX_COUNT: usize = 96;

// A gradient's row.
#[derive(Clone, Copy, Default)]
pub(crate) struct Row {
    pub(crate) key: Key,
    // the page that used the row last
    pub(crate) last_use: u32,
}

// The rows in use, at most 96. No two have the same key.
#[derive(Clone, Copy)]
pub struct Rows {
    rows: FixedVec<Row, MAX_COUNT>,
    ghost distinct: { Distinct (map row_of (items_of rows)) },
}

impl Rows {
    ghost use Rattle.ramps.specs.Rows.{no_row, has_key, row_with, rewritable, maintained, added, added_from, outcome, Inside};
    ghost use Rattle.ramps.specs.View.{key_of};
    ghost use Rattle.ramps.specs.Held.{rows_of};

    // No row.
    pub fn empty() -> Rows
        ensures { rows_of result ≡ [] }
    {
        Rows {
            rows: FixedVec::new(),
        }
    }

    pub(crate) fn as_slice(&self) -> &[Row]
        ensures items { map row_of result.now ≡ rows_of self.now }
        ensures few { length result.now ≤ 96 }
    {
        self.rows.as_slice()
    }

    // How many rows there are.
    pub fn len(&self) -> usize
        ensures value { result ≡ length (rows_of self.now) }
        ensures few { result ≤ 96 }
    {
        self.as_slice().len()
    }

    // The row that has the key.
    pub fn row(&self, key: &[StopBits]) -> Option<usize>
        ensures value { result ≡ row_with key.now (rows_of self.now) }
        ensures within { IfSome result (λ i. i < length (rows_of self.now)) }
        ensures few { IfSome result (λ i. i < 96) }
    {
        self.as_slice()
            .iter()
            .position(|row| row.key.as_slice() == key)
    }

    // Whether row `at` is there and has that key.
    pub(crate) fn has_key_at(&self, at: usize, key: &Key) -> bool
        ensures { result ≡ (nat_lt at (length (rows_of self.now)) && has_key (key_of key.now) (slice_index_or (rows_of self.now) at no_row)) }
    {
        self.as_slice()
            .get(at)
            .is_some_and(|row| row.key.as_slice() == key.as_slice())
    }

    // Drops the rows that are not retained.
    pub(crate) fn maintain(&mut self)
        ensures { rows_of self.new ≡ maintained (rows_of self.old) }
    {
        self.rows.truncate(RETAINED_COUNT);
    }

    // The row that this page may rewrite: with 64 rows or more, the lowest that was last used more than two pages before.
    fn rewritable(&self, page: u32) -> Option<usize>
        ensures { result ≡ rewritable page (rows_of self.now) }
    {
        if self.len() < RETAINED_COUNT {
            return None;
        }
        self.as_slice()
            .iter()
            .position(|row| row.last_use as u64 + 2 < page as u64)
    }

    // The row that the key gets on this page, unless it is a new one.
    fn choice(&self, page: u32, key: &Key) -> Option<usize>
        ensures { result ≡ option_or (row_with (key_of key.now) (rows_of self.now)) (rewritable page (rows_of self.now)) }
    {
        self.row(key.as_slice()).or_else(|| self.rewritable(page))
    }

    // Finds a row for one gradient.
    fn add(&mut self, page: u32, key: Key, patch: usize) -> Result<(), RampFault>
        ensures { outcome result (rows_of self.new) ≡ added page patch (key_of key) (rows_of self.old) }
    {
        let row = Row {
            key,
            last_use: page,
        };
        match self.choice(page, &key) {
            Some(at) => self.rows.set(at, row),
            None if self.len() < MAX_COUNT => self.rows.push(row),
            None => return Err(RampFault::Full { patch }),
        }
        Ok(())
    }

    // Finds rows for the gradients among the patches.
    pub(crate) fn add_patches(
        &mut self,
        page: u32,
        stops: &[StopBits],
        patches: &[Patch],
    ) -> Result<(), RampFault>
        requires { All (Inside (length stops.now)) patches.now }
        ensures { outcome result (rows_of self.new) ≡ added_from page stops.now 0 patches.now (rows_of self.old) }
    {
        for (i, patch) in patches.iter().enumerate() {
            if let Patch::Ramp {
                stops_start,
                stops_end,
                ..
            } = *patch
            {
                self.add(page, Key::new(&stops[stops_start..stops_end]), i)?;
            }
        }
        Ok(())
    }
}
