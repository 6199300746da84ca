ghost use Rattle.std.specs.Prelude.{◌≡◌};
ghost use Rattle.std.specs.Option.{ok_or};
ghost use Rattle.commands.specs.Stream.{stream_name, stream_of};
ghost use Rattle.commands.specs.declared.reason.Reason.TheVariants.{UnknownStream};

use crate::named::{Named, find_named};
use crate::reason::Reason;
use std::fmt;

// One of the six streams of a page.
#[derive(Clone, Copy, Debug, PartialEq, Eq, Drop)]
pub enum Stream {
    PathTags,
    PathData,
    DrawTags,
    DrawData,
    Transforms,
    Styles,
}

const STREAMS: [Stream; 6] = [
    Stream::PathTags,
    Stream::PathData,
    Stream::DrawTags,
    Stream::DrawData,
    Stream::Transforms,
    Stream::Styles,
];

impl Named for Stream {
    ghost name_of = { stream_name };

    fn name(self) -> &'static str {
        match self {
            Stream::PathTags => "path_tags",
            Stream::PathData => "path_data",
            Stream::DrawTags => "draw_tags",
            Stream::DrawData => "draw_data",
            Stream::Transforms => "transforms",
            Stream::Styles => "styles",
        }
    }
}

impl<'a> TryFrom<&'a [u8]> for Stream {
    type Error = Reason;

    ghost try_from_gives = { λ word r. r ≡ ok_or (stream_of word.now) UnknownStream };

    #[tactic(auto, unfolding(crate::specs::Stream::stream_of))]
    fn try_from(word: &'a [u8]) -> Result<Stream, Reason> {
        find_named(&STREAMS, word).ok_or(Reason::UnknownStream)
    }
}

impl fmt::Display for Stream {
    fn fmt<W: fmt::Write>(&self, f: &mut fmt::Formatter<W>) -> fmt::Result {
        f.write_str(self.name())
    }
}
