ghost use Rattle.std.specs.Prelude.{MatchOption};
ghost use Rattle.commands.specs.Entries.{entries_of, ReadAll, ReadNot};

use crate::values::Value;
use job_text::{Flaw, Parts};
use std::alloc::Global;

// A list, its entries with a comma between; an empty text is an empty list.
impl<T: Value + Drop> Value for Vec<T> {
    ghost reads = { λ text r. MatchOption r (ReadNot T.reads (entries_of text)) (λ v. ReadAll T.reads (entries_of text) v.items) };

    fn read(heap: Global, text: &[u8]) -> Result<Vec<T>, Flaw> {
        let mut entries = Vec::new(heap);
        if text.is_empty() {
            return Ok(entries);
        }
        for entry in Parts::new(b',', text) {
            entries.push(T::read(heap, entry)?)?;
        }
        Ok(entries)
    }
}
