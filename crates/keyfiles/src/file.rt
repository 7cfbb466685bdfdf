// A key as a file: one line, in the words of a script's key line.
ghost use Rattle.std.specs.Prelude.{◌≡◌, Some, IfOk, string_bytes};
ghost use Rattle.std.specs.Option.{ok_or, option_map};
ghost use Rattle.scripts.specs.Hex.{hex_bytes, hex_text};
ghost use Rattle.scripts.specs.Reading.{Reads};
ghost use Rattle.scripts.specs.declared.error.ParseError.TheVariants.{NotUnderstood};
ghost use Rattle.keyfiles.specs.declared.file.KeyFile.TheVariants as files;
ghost use Rattle.keyfiles.specs.declared.words.KeyWords.TheVariants as key_words;
ghost use Rattle.keyfiles.specs.Files.{word_is, file_kind_of, public_told, file_by, key_line_told, only_line, key_file_told, key_line, key_file_text};

use crate::words::{KeyKind, KeyWords, LmsWords, TagWords};
use scripts::{Hex, ParseError, Words, decode_array};
use std::alloc::{AllocError, Global};

// The public part of an LMS key: the identifier and the root.
#[derive(Clone, Copy)]
pub struct LmsPublicWords {
    pub id: [u8; 16],
    pub root: [u8; 32],
}

// A key as it stands in a file. A public part inspects, and signs nothing.
#[derive(Clone, Copy)]
pub enum KeyFile {
    Key(KeyWords),
    Public(LmsPublicWords),
}

// The first word of a key in a file. Apart from the key, since the definition of what a file tells goes by it.
#[derive(Clone, Copy)]
enum FileKind {
    Key(KeyKind),
    Public,
}

impl KeyFile {
    #[tactic(auto, unfolding(crate::specs::Files::key_file_told))]
    pub fn read(alloc: Global, bytes: &[u8]) -> Result<KeyFile, ParseError>
        ensures { Reads (λ k. k) (key_file_told bytes.now) result }
    {
        let line = only_line(bytes).ok_or(ParseError::NotUnderstood)?;
        read_line(alloc, line)
    }

    // What it writes reads back as the same key.
    pub fn text(&self, alloc: Global) -> Result<String, AllocError>
        ensures text { IfOk result (λ s. string_bytes s ≡ key_file_text self.now) }
        ensures back { key_file_told (key_file_text self.now) ≡ Some self.now }
    {
        let mut text = self.line(alloc)?;
        text.push_str("\n")?;
        Ok(text)
    }

    fn line(&self, alloc: Global) -> Result<String, AllocError>
        ensures line { IfOk result (λ s. string_bytes s ≡ key_line self.now) }
        ensures back { key_file_told (key_file_text self.now) ≡ Some self.now }
    {
        match self {
            KeyFile::Key(KeyWords::Tag(words)) => tag_line(alloc, words),
            KeyFile::Key(KeyWords::Lms(words)) => lms_line(alloc, words),
            KeyFile::Public(words) => public_line(alloc, words),
        }
    }
}

impl FileKind {
    #[tactic(auto, using(scripts::proofs::TableLemmas::row_read))]
    fn named(word: &[u8]) -> Option<FileKind>
        ensures { result ≡ file_kind_of word.now }
    {
        match word {
            b"lms-public" => Some(FileKind::Public),
            _ => Some(FileKind::Key(KeyKind::named(word)?)),
        }
    }

    // Reads the words behind the kind.
    fn parse_rest(self, alloc: Global, words: Words) -> Result<KeyFile, ParseError>
        ensures { Reads (λ k. k) (file_by self words.entry) result }
    {
        match self {
            FileKind::Key(kind) => Ok(KeyFile::Key(kind.parse_rest(alloc, words)?)),
            FileKind::Public => parse_public(alloc, words),
        }
    }
}

// The line of a text that is one line.
fn only_line(text: &[u8]) -> Option<&[u8]>
    ensures { option_map (λ line. line.now) result ≡ only_line text.now }
{
    let end = text.iter().position(|byte| *byte == b'\n')?;
    if end + 1 < text.len() {
        return None;
    }
    Some(&text[..end])
}

fn read_line(alloc: Global, line: &[u8]) -> Result<KeyFile, ParseError>
    ensures { Reads (λ k. k) (key_line_told line.now) result }
{
    let mut words = Words::new(line);
    expect(words.next_word()?, b"nazkoiber")?;
    expect(words.next_word()?, b"key")?;
    let kind = FileKind::named(words.next_word()?).ok_or(ParseError::NotUnderstood)?;
    kind.parse_rest(alloc, words)
}

fn expect(word: &[u8], name: &[u8]) -> Result<(), ParseError>
    ensures { result ≡ ok_or (word_is name.now word.now) NotUnderstood }
{
    if word == name {
        Ok(())
    } else {
        Err(ParseError::NotUnderstood)
    }
}

fn parse_public(alloc: Global, mut words: Words) -> Result<KeyFile, ParseError>
    ensures { Reads (λ k. k) (public_told words.entry) result }
{
    let id = decode_array::<16>(alloc, words.next_word()?)?;
    let root = decode_array::<32>(alloc, words.last_word()?)?;
    Ok(KeyFile::Public(LmsPublicWords { id, root }))
}

// Bytes as a word of a line.
fn word(bytes: &[u8]) -> Hex<'_>
    ensures bytes { result.0.now ≡ bytes.now }
    ensures back { hex_bytes (hex_text bytes.now) ≡ Some bytes.now }
{
    Hex(bytes)
}

#[tactic(auto, using(crate::proofs::Back::tag_file_back))]
fn tag_line(alloc: Global, words: &TagWords) -> Result<String, AllocError>
    ensures line { IfOk result (λ s. string_bytes s ≡ key_line (files.Key (key_words.Tag words.now))) }
    ensures back { key_file_told (key_file_text (files.Key (key_words.Tag words.now))) ≡ Some (files.Key (key_words.Tag words.now)) }
{
    let TagWords {
        digest,
        secret,
        name,
        next,
    } = *words;
    let secret = word(&secret);
    let name = word(&name);
    format!(in alloc; "nazkoiber key tag {digest} {secret} {name} {next}")
}

#[tactic(auto, using(crate::proofs::Back::lms_file_back))]
fn lms_line(alloc: Global, words: &LmsWords) -> Result<String, AllocError>
    ensures line { IfOk result (λ s. string_bytes s ≡ key_line (files.Key (key_words.Lms words.now))) }
    ensures back { key_file_told (key_file_text (files.Key (key_words.Lms words.now))) ≡ Some (files.Key (key_words.Lms words.now)) }
{
    let LmsWords { id, seed, next } = *words;
    let id = word(&id);
    let seed = word(&seed);
    format!(in alloc; "nazkoiber key lms {id} {seed} {next}")
}

#[tactic(auto, using(crate::proofs::Back::public_file_back))]
fn public_line(alloc: Global, words: &LmsPublicWords) -> Result<String, AllocError>
    ensures line { IfOk result (λ s. string_bytes s ≡ key_line (files.Public words.now)) }
    ensures back { key_file_told (key_file_text (files.Public words.now)) ≡ Some (files.Public words.now) }
{
    let LmsPublicWords { id, root } = *words;
    let id = word(&id);
    let root = word(&root);
    format!(in alloc; "nazkoiber key lms-public {id} {root}")
}
