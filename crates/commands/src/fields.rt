use crate::reason::Reason;
use crate::values::Value;
use job_text::{Flaw, Line, cut};
use std::alloc::Global;

// The fields of a command, each once: keys with their values. A list and no map: they are few, and with a map a line
// that has fields takes a third longer.
#[derive(Drop)]
pub struct Fields<'a> {
    heap: Global,
    all: Vec<(&'static str, &'a [u8])>,
}

// The key and the value of a field's word, whose key is one of those that the command has.
fn read_field<'a>(
    word: &'a [u8],
    keys: &[&'static str],
) -> Result<(&'static str, &'a [u8]), Reason> {
    let (front, value) = cut(b'=', word);
    let value = value.ok_or(Reason::NoField)?;
    let key = keys
        .iter()
        .copied()
        .find(|key| key.as_bytes() == front)
        .ok_or(Reason::UnknownField)?;
    Ok((key, value))
}

impl<'a> Fields<'a> {
    // Reads the rest of a line.
    pub(crate) fn read(
        heap: Global,
        line: &mut Line<'a>,
        keys: &[&'static str],
    ) -> Result<Fields<'a>, Reason> {
        let mut fields = Fields {
            heap,
            all: Vec::new(heap),
        };
        for word in &mut *line {
            let (key, value) = read_field(word, keys)?;
            if fields.value(key).is_some() {
                return Err(Reason::FieldTwice(key));
            }
            fields.all.push((key, value))?;
        }
        Ok(fields)
    }

    // The value of a field, if it is given.
    fn value(&self, key: &str) -> Option<&'a [u8]> {
        let field = self.all.iter().find(|field| field.0 == key);
        field.map(|field| field.1)
    }

    // A field that may be left out.
    pub(crate) fn optional<T: Value>(&self, key: &'static str) -> Result<Option<T>, Reason> {
        let value = self.value(key).map(|text| T::read(self.heap, text));
        value.transpose().map_err(|flaw| match flaw {
            Flaw::Form => Reason::WrongValue(key),
            Flaw::Memory => Reason::NoMemory,
        })
    }

    // A field that has to be given.
    pub(crate) fn needed<T: Value>(&self, key: &'static str) -> Result<T, Reason> {
        self.optional(key)?.ok_or(Reason::MissingField(key))
    }

    // A list that is empty where it is left out.
    pub(crate) fn list<T: Drop>(&self, key: &'static str) -> Result<Vec<T>, Reason>
    where
        Vec<T>: Value,
    {
        Ok(self.optional(key)?.unwrap_or(Vec::new(self.heap)))
    }
}
