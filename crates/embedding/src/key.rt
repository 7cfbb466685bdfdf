// A tag key that is given by the number of its digest and by its secret.
ghost use Rattle.std.specs.Prelude.{◌≡◌};
ghost use Rattle.std.specs.Result.{result_map_both};
ghost use Rattle.keyfiles.specs.Keys.{inspector_kind, inspector_says};
ghost use Rattle.seals.specs.Scheme.{inspection};
ghost use Rattle.embedding.specs.Given.{key_answer, words_answer, inspection_by, exactly};

use answers::Refusal;
use desk::digest_numbered;
use keyfiles::{AnyInspector, KeyWords, TagWords};
use keys::TagInspector;
use told::Algorithm;

#[derive(Clone, Copy)]
pub(crate) struct Key {
    pub(crate) digest: Algorithm,
    pub(crate) secret: [u8; 32],
}

// Bytes of just this length.
fn read_array<const N: usize>(bytes: &[u8]) -> Result<[u8; N], Refusal>
    ensures { result ≡ exactly N bytes.now }
{
    <[u8; N]>::try_from(bytes).map_err(|_| Refusal::NoSuchParameter)
}

impl Key {
    pub(crate) fn new(digest: u8, secret: &[u8]) -> Result<Key, Refusal>
        ensures { result_map_both (λ k. (k.digest, k.secret)) (λ e. e) result ≡ key_answer digest secret.now }
    {
        let digest = digest_numbered(digest).ok_or(Refusal::NoSuchParameter)?;
        let secret = read_array(secret)?;
        Ok(Key { digest, secret })
    }

    pub(crate) fn inspector(&self) -> AnyInspector
        ensures { inspection (inspector_kind result) (inspector_says result) ≡ inspection_by (self.now.digest, self.now.secret) }
    {
        match self.digest {
            Algorithm::Sha256 => AnyInspector::TagSha256(TagInspector::new(self.secret)),
            Algorithm::Blake2s => AnyInspector::TagBlake2s(TagInspector::new(self.secret)),
        }
    }
}

// Its digest, and in words that key with a name and the number that it draws next.
pub(crate) fn key_words(
    digest: u8,
    secret: &[u8],
    name: &[u8],
    next: u32,
) -> Result<(Algorithm, KeyWords), Refusal>
    ensures { result ≡ words_answer digest secret.now name.now next }
{
    let Key { digest, secret } = Key::new(digest, secret)?;
    let name = read_array(name)?;
    let words = TagWords {
        digest,
        secret,
        name,
        next,
    };
    Ok((digest, KeyWords::Tag(words)))
}
