ghost use Rattle.std.specs.Prelude.{◌≡◌};
ghost use Rattle.std.specs.Option.{ok_or};
ghost use Rattle.commands.specs.Verb.{verb_name, verb_of, read_verb};
ghost use Rattle.job_text.specs.Words.{first_word, after_word};
ghost use Rattle.commands.specs.declared.reason.Reason.TheVariants.{UnknownCommand};

use crate::named::{Named, find_named};
use crate::reason::Reason;
use job_text::Line;
use std::fmt;

// What a line asks for, by its first word.
#[derive(Clone, Copy, Debug, PartialEq, Eq, Drop)]
pub enum Verb {
    Scene,
    Lay,
    Gradient,
    Picture,
    Run,
    Append,
    Show,
    Shape,
    Table,
    Glyph,
    Resolver,
    Resolve,
    Keep,
    Reject,
    Mark,
    Plain,
    State,
    View,
}

const VERBS: [Verb; 18] = [
    Verb::Scene,
    Verb::Lay,
    Verb::Gradient,
    Verb::Picture,
    Verb::Run,
    Verb::Append,
    Verb::Show,
    Verb::Shape,
    Verb::Table,
    Verb::Glyph,
    Verb::Resolver,
    Verb::Resolve,
    Verb::Keep,
    Verb::Reject,
    Verb::Mark,
    Verb::Plain,
    Verb::State,
    Verb::View,
];

impl Verb {
    // The verb of a line; none where the line is passed over.
    pub fn read(line: &mut Line<'_>) -> Result<Option<Verb>, Reason>
        ensures value { result ≡ read_verb (first_word line.old.rest.now) }
        ensures after { line.new.rest.now ≡ after_word line.old.rest.now }
    {
        match line.next() {
            Some(word) if word[0] != b'#' => Verb::try_from(word).map(Some),
            _ => Ok(None),
        }
    }
}

impl Named for Verb {
    ghost name_of = { verb_name };

    fn name(self) -> &'static str {
        match self {
            Verb::Scene => "scene",
            Verb::Lay => "lay",
            Verb::Gradient => "gradient",
            Verb::Picture => "picture",
            Verb::Run => "run",
            Verb::Append => "append",
            Verb::Show => "show",
            Verb::Shape => "shape",
            Verb::Table => "table",
            Verb::Glyph => "glyph",
            Verb::Resolver => "resolver",
            Verb::Resolve => "resolve",
            Verb::Keep => "keep",
            Verb::Reject => "reject",
            Verb::Mark => "mark",
            Verb::Plain => "plain",
            Verb::State => "state",
            Verb::View => "view",
        }
    }
}

impl<'a> TryFrom<&'a [u8]> for Verb {
    type Error = Reason;

    ghost try_from_gives = { λ word r. r ≡ ok_or (verb_of word.now) UnknownCommand };

    #[tactic(auto, unfolding(crate::specs::Verb::verb_of))]
    fn try_from(word: &'a [u8]) -> Result<Verb, Reason> {
        find_named(&VERBS, word).ok_or(Reason::UnknownCommand)
    }
}

impl fmt::Display for Verb {
    fn fmt<W: fmt::Write>(&self, f: &mut fmt::Formatter<W>) -> fmt::Result {
        f.write_str(self.name())
    }
}
