ghost use Rattle.std.specs.Prelude.{◌≡◌, IfErr};
ghost use Rattle.job.specs.Runner.{line_number, next_number};

use crate::failure::Failure;
use crate::run::Run;
use crate::session::Session;
use commands::{
    AppendCommand, GradientCommand, LayCommand, PictureCommand, PlainCommand, Reason, RunCommand,
    SceneCommand, ShowCommand, Verb, ViewCommand,
};
use job_text::Line;
use std::alloc::Global;
use std::fmt::Write;
use thiserror::Error;

const MOST_LINES: usize = 1_000_000;

const LONGEST_LINE: usize = 16_777_216;

// What ended a job, and at which line.
#[derive(Clone, Copy, Debug, PartialEq, Eq, Error)]
#[error("{line}: error: {reason}")]
pub struct Fault {
    pub line: usize,
    pub reason: Reason,
}

// Runs the lines of a job.
#[derive(Drop)]
pub struct Runner {
    heap: Global,
    line: usize,
    session: Session,
}

impl Runner {
    pub fn new(heap: Global) -> Runner
        ensures { line_number result ≡ 0 }
    {
        Runner {
            heap,
            line: 0,
            session: Session::new(heap),
        }
    }

    // Runs the next line and puts what it prints at the end of `out`.
    pub fn run_line(&mut self, line: &[u8], out: &mut String) -> Result<(), Fault>
        ensures counted { line_number self.new ≡ next_number (line_number self.old) }
        ensures named { IfErr result (λ fault. fault.line ≡ line_number self.new) }
    {
        self.line = self.line.saturating_add(1);
        self.answer_line(line, out).map_err(|reason| Fault {
            line: self.line,
            reason,
        })
    }

    fn answer_line(&mut self, line: &[u8], out: &mut String) -> Result<(), Reason>
        ensures { line_number self.new ≡ line_number self.old }
    {
        if self.line > MOST_LINES {
            return Err(Reason::TooManyLines);
        }
        if line.len() > LONGEST_LINE {
            return Err(Reason::LineTooLong);
        }
        let line = &mut Line::new(line);
        let Some(verb) = Verb::read(line)? else {
            return Ok(());
        };
        match verb {
            Verb::Scene => self.run::<SceneCommand>(line, out),
            Verb::Lay => self.run::<LayCommand>(line, out),
            Verb::Gradient => self.run::<GradientCommand>(line, out),
            Verb::Picture => self.run::<PictureCommand>(line, out),
            Verb::Run => self.run::<RunCommand>(line, out),
            Verb::Append => self.run::<AppendCommand>(line, out),
            Verb::Show => self.run::<ShowCommand>(line, out),
            Verb::Plain => self.run::<PlainCommand>(line, out),
            Verb::View => self.run::<ViewCommand>(line, out),
            _ => Err(Reason::NotBuilt(verb)),
        }
    }

    fn run<C: Run + Drop>(&mut self, line: &mut Line<'_>, out: &mut String) -> Result<(), Reason>
        ensures { line_number self.new ≡ line_number self.old }
    {
        let command = C::read(self.heap, line)?;
        let number = self.line;
        let verb = C::VERB;
        let subject = command.subject();
        match command.run(&mut self.session) {
            Ok(outcome) => writeln!(out, "{number} {verb} {subject}: {outcome}")?,
            Err(Failure::Refused(refused)) => writeln!(
                out,
                "{number} {verb} {subject}: {refused}"
            )?,
            Err(Failure::Fault(reason)) => return Err(reason),
        }
        Ok(())
    }
}
