use crate::failure::Failure;
use crate::outcome::Outcome;
use crate::session::Session;
use commands::{
    AppendCommand, Command, GradientCommand, LayCommand, PictureCommand, PlainCommand, RunCommand,
    SceneCommand, ShowCommand, ViewCommand,
};

// A command that is run on what the commands before it have made. A trait, as no proof closes for
// `Runner::run` with a closure that answers an outcome which borrows from the session.
pub(crate) trait Run: Command {
    fn run<'a>(&self, session: &'a mut Session) -> Result<Outcome<'a>, Failure>;
}

impl Run for SceneCommand {
    fn run<'a>(&self, session: &'a mut Session) -> Result<Outcome<'a>, Failure> {
        session.scene(self)
    }
}

impl Run for LayCommand {
    fn run<'a>(&self, session: &'a mut Session) -> Result<Outcome<'a>, Failure> {
        session.lay(self)
    }
}

impl Run for GradientCommand {
    fn run<'a>(&self, session: &'a mut Session) -> Result<Outcome<'a>, Failure> {
        session.gradient(self)
    }
}

impl Run for PictureCommand {
    fn run<'a>(&self, session: &'a mut Session) -> Result<Outcome<'a>, Failure> {
        session.picture(self)
    }
}

impl Run for RunCommand {
    fn run<'a>(&self, session: &'a mut Session) -> Result<Outcome<'a>, Failure> {
        session.glyph_run(self)
    }
}

impl Run for AppendCommand {
    fn run<'a>(&self, session: &'a mut Session) -> Result<Outcome<'a>, Failure> {
        session.append(self)
    }
}

impl Run for ShowCommand {
    fn run<'a>(&self, session: &'a mut Session) -> Result<Outcome<'a>, Failure> {
        session.show(self.scene)
    }
}

impl Run for PlainCommand {
    fn run<'a>(&self, session: &'a mut Session) -> Result<Outcome<'a>, Failure> {
        session.plain(self)
    }
}

impl Run for ViewCommand {
    fn run<'a>(&self, session: &'a mut Session) -> Result<Outcome<'a>, Failure> {
        session.view(self.stream)
    }
}
