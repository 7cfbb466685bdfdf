// Drawing a number of a key that stands in a file, and the part of such a key that may be given away.
ghost use Rattle.std.specs.Prelude.{◌≡◌, ◌<◌};
ghost use Rattle.std.specs.Option.{option_map};
ghost use Rattle.std.specs.Result.{result_map_both};
ghost use Rattle.keyfiles.specs.Drawing.{drawn_by, words_drawn, file_drawn, words_after, file_after, words_next, raised, public_of, public_part};
ghost use Rattle.keyfiles.specs.Making.{held};

use crate::file::{KeyFile, LmsPublicWords};
use crate::key::AnyKey;
use crate::words::KeyWords;
use answers::Refusal;
use keys::{Drawn, draw};
use lms::LmsKey;

impl KeyFile {
    // Draws the next number. What is then to be written back says that it is gone. A public part draws none.
    pub fn draw(&mut self) -> Result<Option<(AnyKey, Drawn)>, Refusal>
        ensures answer { result_map_both (option_map (λ d. (held d.0, (d.1.key, d.1.number)))) (λ e. e) result ≡ file_drawn self.old }
        ensures file { self.new ≡ file_after self.old }
    {
        match self {
            KeyFile::Key(words) => Ok(Some(words.draw()?)),
            KeyFile::Public(_) => Ok(None),
        }
    }

    // The public part of an LMS key. A tag key has none.
    pub fn public(&self) -> Option<KeyFile>
        ensures { result ≡ public_of self.now }
    {
        match self {
            KeyFile::Key(KeyWords::Tag(_)) => None,
            KeyFile::Key(KeyWords::Lms(words)) => Some(public_part(words.id, words.seed)),
            KeyFile::Public(_) => Some(*self),
        }
    }
}

fn public_part(id: [u8; 16], seed: [u8; 32]) -> KeyFile
    ensures { result ≡ public_part id seed }
{
    // This cannot refuse: 0 is below the limit.
    let public = LmsKey::new(id, seed, 0).unwrap().public();
    KeyFile::Public(LmsPublicWords {
        id: public.id(),
        root: public.root(),
    })
}

impl KeyWords {
    pub fn draw(&mut self) -> Result<(AnyKey, Drawn), Refusal>
        ensures answer { result_map_both (λ d. (held d.0, (d.1.key, d.1.number))) (λ e. e) result ≡ words_drawn self.old }
        ensures words { self.new ≡ words_after self.old }
    {
        let drawn = draw_by(self.make()?)?;
        self.raise();
        Ok(drawn)
    }

    fn raise(&mut self)
        requires { words_next self.old < 4294967295 }
        ensures { self.new ≡ raised self.old }
    {
        match self {
            KeyWords::Tag(words) => words.next += 1,
            KeyWords::Lms(words) => words.next += 1,
        }
    }
}

fn draw_by(mut key: AnyKey) -> Result<(AnyKey, Drawn), Refusal>
    ensures { result_map_both (λ d. (held d.0, (d.1.key, d.1.number))) (λ e. e) result ≡ drawn_by (held key) }
{
    let drawn = draw(&mut key)?;
    Ok((key, drawn))
}
