// The commands by their names.
ghost use Rattle.std.specs.Prelude.{◌≡◌};
ghost use Rattle.commands.specs.Names.{command_of, key_command_of};

#[derive(Clone, Copy)]
pub enum Command {
    KeyNew,
    KeyPublic,
    KeyShow,
    Seal,
    Check,
    Rewrite,
    Vouch,
    Excerpt,
    Confirm,
    Part,
    Show,
    Lines,
    Demo,
    Replay,
}

impl Command {
    // The command that a first word names.
    #[tactic(auto, using(scripts::proofs::TableLemmas::row_read))]
    pub(crate) fn named(word: &str) -> Option<Command>
        ensures { result ≡ command_of word.now }
    {
        match word.as_bytes() {
            b"seal" => Some(Command::Seal),
            b"check" => Some(Command::Check),
            b"rewrite" => Some(Command::Rewrite),
            b"vouch" => Some(Command::Vouch),
            b"excerpt" => Some(Command::Excerpt),
            b"confirm" => Some(Command::Confirm),
            b"part" => Some(Command::Part),
            b"show" => Some(Command::Show),
            b"lines" => Some(Command::Lines),
            b"demo" => Some(Command::Demo),
            b"replay" => Some(Command::Replay),
            _ => None,
        }
    }

    // The command that the word behind `key` names.
    #[tactic(auto, using(scripts::proofs::TableLemmas::row_read))]
    pub(crate) fn of_keys(word: &str) -> Option<Command>
        ensures { result ≡ key_command_of word.now }
    {
        match word.as_bytes() {
            b"new" => Some(Command::KeyNew),
            b"public" => Some(Command::KeyPublic),
            b"show" => Some(Command::KeyShow),
            _ => None,
        }
    }
}
