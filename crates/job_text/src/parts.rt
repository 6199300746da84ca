ghost use Rattle.std.specs.Prelude.{◌≡◌};
ghost use Rattle.std.specs.Iterator.{YieldsFirstRef, item_count};
ghost use Rattle.job_text.specs.Words.{parts_of};
ghost use Rattle.job_text.specs.Parts.{left};

use crate::finds::cut;

// The parts of a text that are still to come, with a byte between them.
// std's `split` gives the same parts, but a loop over it in a generic function stops the check.
#[derive(Drop)]
pub struct Parts<'a> {
    between: u8,
    rest: Option<&'a [u8]>,
}

impl<'a> Parts<'a> {
    pub fn new(between: u8, text: &'a [u8]) -> Parts<'a>
        ensures { left result ≡ parts_of between text.now }
    {
        Parts {
            between,
            rest: Some(text),
        }
    }
}

impl<'a> Iterator for Parts<'a> {
    type Item = &'a [u8];

    ghost next_gives = { YieldsFirstRef left };

    ghost remaining = { item_count left };

    fn next(&mut self) -> Option<&'a [u8]> {
        let text = self.rest?;
        let (part, rest) = cut(self.between, text);
        self.rest = rest;
        Some(part)
    }
}
