ghost use Rattle.std.specs.Prelude.{◌≡◌};
ghost use Rattle.std.specs.Iterator.{YieldsFirstRef, item_count};
ghost use Rattle.job.specs.Lines.{lines, left};
ghost use Rattle.job_text.specs.Words.{without_return};

use job_text::cut;

// The lines of a text that are still to come. A line ends at a line feed, which the last may lack, and a
// carriage return before it is dropped.
#[derive(Drop)]
pub struct Lines<'a> {
    rest: &'a [u8],
}

fn without_return(line: &[u8]) -> &[u8]
    ensures { result.now ≡ without_return line.now }
{
    match line {
        [front @ .., b'\r'] => front,
        _ => line,
    }
}

impl<'a> Lines<'a> {
    pub fn new(text: &'a [u8]) -> Lines<'a>
        ensures { left result ≡ lines text.now }
    {
        Lines { rest: text }
    }
}

impl<'a> Iterator for Lines<'a> {
    type Item = &'a [u8];

    ghost next_gives = { YieldsFirstRef left };

    ghost remaining = { item_count left };

    fn next(&mut self) -> Option<&'a [u8]> {
        let text = self.rest;
        if text.is_empty() {
            return None;
        }
        let (line, rest) = cut(b'\n', text);
        self.rest = rest.unwrap_or(&[]);
        Some(without_return(line))
    }
}
