// What is wrong with the words of a command line.
ghost use Rattle.std.specs.Prelude.{◌≡◌};
ghost use Rattle.commands.specs.Usages.{misuse_text};

#[derive(Clone, Copy)]
pub enum Misuse {
    NoCommand,
    NoSuchCommand,
    NoCommandOnKeys,
    NoSuchCommandOnKeys,
    LackingWord,
    NoSuchOption,
    WordCount,
    NotANumber,
    NoSuchDigest,
    NoSuchKind,
    NotAName,
    NoChoiceOfDigest,
}

impl Misuse {
    pub(crate) fn text(self) -> &'static str
        ensures { result.now ≡ misuse_text self }
    {
        match self {
            Misuse::NoCommand => "which command?",
            Misuse::NoSuchCommand => "no such command",
            Misuse::NoCommandOnKeys => "which command on keys?",
            Misuse::NoSuchCommandOnKeys => "no such command on keys",
            Misuse::LackingWord => "an option lacks its word",
            Misuse::NoSuchOption => "no such option",
            Misuse::WordCount => "too few or too many words",
            Misuse::NotANumber => "not a number up to 65535",
            Misuse::NoSuchDigest => "no such digest",
            Misuse::NoSuchKind => "a key is tag or lms",
            Misuse::NotAName => "a name is 16 lower-case hex digits",
            Misuse::NoChoiceOfDigest => "an LMS key has no choice of digest",
        }
    }
}
