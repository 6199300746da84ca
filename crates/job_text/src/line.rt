ghost use Rattle.std.specs.Prelude.{◌≡◌, length};
ghost use Rattle.std.specs.Iterator.{at_most};

use crate::finds::{run_of, up_to};

// What is left to read of a line, whose words are apart by spaces.
#[derive(Clone, Copy, Drop)]
pub struct Line<'a> {
    rest: &'a [u8],
}

impl<'a> Line<'a> {
    pub fn new(bytes: &'a [u8]) -> Line<'a>
        ensures { result.rest.now ≡ bytes.now }
    {
        Line { rest: bytes }
    }
}

impl<'a> Iterator for Line<'a> {
    ghost use Rattle.job_text.specs.Line.{TakesWord};

    type Item = &'a [u8];

    ghost next_gives = { TakesWord };

    ghost remaining = { λ s. at_most (length s.rest.now) };

    fn next(&mut self) -> Option<&'a [u8]> {
        let line = self.rest;
        let (_, from) = line.split_at(run_of(b' ', line));
        let (word, rest) = from.split_at(up_to(b' ', from));
        self.rest = rest;
        if word.is_empty() { None } else { Some(word) }
    }
}
