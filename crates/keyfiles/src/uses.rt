// What a program makes of a key file: the key that seals, an inspector, and what is told of it.
ghost use Rattle.std.specs.Prelude.{◌≡◌, ◌-◌, IfOk, string_bytes};
ghost use Rattle.std.specs.Option.{option_map};
ghost use Rattle.std.specs.Result.{result_map_both};
ghost use Rattle.keys.specs.Tag.{tag_limit};
ghost use Rattle.keyfiles.specs.declared.file.KeyFile.TheVariants as files;
ghost use Rattle.keyfiles.specs.declared.words.KeyWords.TheVariants as key_words;
ghost use Rattle.keyfiles.specs.Keys.{inspector_kind, inspector_says};
ghost use Rattle.keyfiles.specs.Making.{held, words_kind, words_says};
ghost use Rattle.keyfiles.specs.Uses.{sealer_answer, file_kind, file_says, described_text};

use crate::file::{KeyFile, LmsPublicWords};
use crate::key::{AnyInspector, AnyKey};
use crate::words::{KeyWords, LmsWords, TagWords};
use answers::Refusal;
use keys::TagInspector;
use lms::{LmsKey, LmsPublic};
use scripts::Hex;
use std::alloc::{AllocError, Global};
use told::Algorithm;

// How many numbers a tag key has, and an LMS key.
const TAG_LIMIT: u32 = 1_000_000;

const LMS_LIMIT: u32 = 32;

impl KeyFile {
    // The key that draws and signs: none of a public part.
    pub fn sealer(&self) -> Result<Option<AnyKey>, Refusal>
        ensures { result_map_both (option_map held) (λ e. e) result ≡ sealer_answer self.now }
    {
        match self {
            KeyFile::Key(words) => Ok(Some(words.make()?)),
            KeyFile::Public(_) => Ok(None),
        }
    }

    // An inspector inspects whatever the next number is, also one above the limit.
    pub fn inspector(&self) -> AnyInspector
        ensures kind { inspector_kind result ≡ file_kind self.now }
        ensures says { inspector_says result ≡ file_says self.now }
    {
        match self {
            KeyFile::Key(KeyWords::Tag(words)) => tag_inspector(words),
            KeyFile::Key(KeyWords::Lms(words)) => lms_inspector(words),
            KeyFile::Public(words) => AnyInspector::Lms(LmsPublic::new(words.id, words.root)),
        }
    }

    // What may be shown of it.
    pub fn described(&self, alloc: Global) -> Result<String, AllocError>
        ensures { IfOk result (λ s. string_bytes s ≡ described_text self.now) }
    {
        match self {
            KeyFile::Key(KeyWords::Tag(words)) => tag_described(alloc, words),
            KeyFile::Key(KeyWords::Lms(words)) => lms_described(alloc, words),
            KeyFile::Public(words) => public_described(alloc, words),
        }
    }
}

fn tag_inspector(words: &TagWords) -> AnyInspector
    ensures kind { inspector_kind result ≡ 1 }
    ensures says { inspector_says result ≡ words_says (key_words.Tag words.now) }
{
    match words.digest {
        Algorithm::Sha256 => AnyInspector::TagSha256(TagInspector::new(words.secret)),
        Algorithm::Blake2s => AnyInspector::TagBlake2s(TagInspector::new(words.secret)),
    }
}

fn lms_inspector(words: &LmsWords) -> AnyInspector
    ensures kind { inspector_kind result ≡ 2 }
    ensures says { inspector_says result ≡ words_says (key_words.Lms words.now) }
{
    // This cannot refuse: 0 is below the limit.
    let key = LmsKey::new(words.id, words.seed, 0).unwrap();
    AnyInspector::Lms(key.public())
}

fn tag_described(alloc: Global, words: &TagWords) -> Result<String, AllocError>
    ensures { IfOk result (λ s. string_bytes s ≡ described_text (files.Key (key_words.Tag words.now))) }
{
    let TagWords {
        digest,
        secret: _,
        name,
        next,
    } = *words;
    let name = Hex(&name);
    let left = TAG_LIMIT.saturating_sub(next);
    format!(in alloc; "kind tag {digest}\nname {name}\nnext {next}\nleft {left}\n")
}

fn lms_described(alloc: Global, words: &LmsWords) -> Result<String, AllocError>
    ensures { IfOk result (λ s. string_bytes s ≡ described_text (files.Key (key_words.Lms words.now))) }
{
    let LmsWords { id, seed: _, next } = *words;
    let name = Hex(&id[..8]);
    let left = LMS_LIMIT.saturating_sub(next);
    format!(in alloc; "kind lms\nname {name}\nnext {next}\nleft {left}\n")
}

fn public_described(alloc: Global, words: &LmsPublicWords) -> Result<String, AllocError>
    ensures { IfOk result (λ s. string_bytes s ≡ described_text (files.Public words.now)) }
{
    let name = Hex(&words.id[..8]);
    format!(in alloc; "kind lms, public part\nname {name}\n")
}
