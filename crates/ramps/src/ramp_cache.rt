ghost use Rattle.std.specs.Prelude.{◌≡◌, ◌≤◌, [], length, vec_len, IfOk};
ghost use Rattle.std.specs.List.{flat_map, All};
ghost use Rattle.ramps.specs.Laws.{RowLaws};
ghost use Rattle.ramps.specs.Rows.{rows_for, Inside};
ghost use Rattle.ramps.specs.Sheet.{row_words, sheet_of, Drawn};
ghost use Rattle.ramps.specs.Held.{rows_of};

use crate::fault::RampFault;
use crate::rows::{MAX_COUNT, Rows};
use draw::{N_SAMPLES, StopBits};
use records::Patch;
use std::alloc::{AllocError, Global};
use std::mem;

// How many words a row sheet has.
pub const SHEET_LEN: usize = MAX_COUNT * N_SAMPLES;

// Data and dimensions for a set of resolved gradient ramps.
#[derive(Clone, Copy)]
pub struct Ramps<'a> {
    pub data: &'a [u32],
    pub width: u32,
    pub height: u32,
}

// The rows from page to page, with their samples, which are computed only where a row gets another key.
// Two lists side by side: `ramps` hands out the samples of all rows as one slice.
#[derive(Drop)]
pub struct RampCache {
    rows: Rows,
    samples: Vec<[u32; N_SAMPLES]>,
    ghost whole: { vec_len samples ≡ 96 },
    ghost drawn: { Drawn (rows_of rows) samples.items },
}

// Makes the samples of the rows `before` those of `rows`.
fn redraw(samples: &mut [[u32; N_SAMPLES]], rows: &Rows, before: &Rows)
    requires whole { length samples.old ≡ 96 }
    requires drawn { Drawn (rows_of before.now) samples.old }
    ensures { Drawn (rows_of rows.now) samples.new }
{
    for (i, row) in rows.as_slice().iter().enumerate() {
        if !before.has_key_at(i, &row.key) {
            samples[i] = row.key.samples();
        }
    }
}

impl RampCache {
    ghost use Rattle.ramps.specs.Cache.{rows_in, chosen};

    // A cache with no row. No later call needs memory.
    pub fn make(heap: Global) -> Result<RampCache, AllocError>
        ensures rows { IfOk result (λ c. rows_in c ≡ []) }
        ensures laws { RowLaws }
    {
        let samples = vec![in heap; [0; N_SAMPLES]; MAX_COUNT]?;
        Ok(RampCache {
            rows: Rows::empty(),
            samples,
        })
    }

    // The rows of a page for the gradients among its patches. The cache stays as it is.
    pub fn resolve(
        &self,
        page: u32,
        stops: &[StopBits],
        patches: &[Patch],
    ) -> Result<Rows, RampFault>
        requires { All (Inside (length stops.now)) patches.now }
        ensures { chosen result ≡ rows_for page stops.now patches.now (rows_in self.now) }
    {
        let mut rows = self.rows;
        rows.maintain();
        rows.add_patches(page, stops, patches)?;
        Ok(rows)
    }

    // Puts other rows in place, and answers those from before.
    pub fn replace(&mut self, rows: Rows) -> Rows
        ensures value { rows_of result ≡ rows_in self.old }
        ensures after { rows_in self.new ≡ rows_of rows }
    {
        redraw(self.samples.as_mut_slice(), &rows, &self.rows);
        mem::replace(&mut self.rows, rows)
    }

    pub fn ramps(&self) -> Ramps<'_>
        ensures samples { result.«data».now ≡ flat_map row_words (rows_in self.now) }
        ensures few { length result.«data».now ≤ 49152 }
        ensures width { result.width ≡ 512 }
        ensures height { result.height ≡ length (rows_in self.now) }
    {
        let height = self.rows.len();
        Ramps {
            data: self.samples.as_slice()[..height].as_flattened(),
            width: N_SAMPLES as u32,
            height: height as u32,
        }
    }

    // Writes the row sheet.
    pub fn write_sheet(&self, sheet: &mut [u32])
        requires { length sheet.old ≡ 49152 }
        ensures { sheet.new ≡ sheet_of (rows_in self.now) }
    {
        let data = self.ramps().data;
        let used = data.len();
        sheet[0..used].copy_from_slice(data);
        sheet[used..].fill(0);
    }
}
