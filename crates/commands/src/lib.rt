// The commands of a job: each line read into one, or a reason why it is none.
#![tactic(auto)]

mod append;
mod command;
mod compounds;
mod fields;
mod gradient;
mod lay;
mod lists;
mod named;
mod picture;
mod plain;
mod reason;
mod run;
mod scene;
mod show;
mod stream;
mod subject;
mod values;
mod verb;
mod view;

pub use append::{AppendCommand, BothNames};
pub use command::Command;
pub use gradient::GradientCommand;
pub use lay::LayCommand;
pub use named::Named;
pub use picture::PictureCommand;
pub use plain::PlainCommand;
pub use reason::Reason;
pub use run::RunCommand;
pub use scene::SceneCommand;
pub use show::ShowCommand;
pub use stream::Stream;
pub use subject::Subject;
pub use verb::Verb;
pub use view::ViewCommand;
