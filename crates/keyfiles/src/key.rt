// A key of any kind, for programs that are told the kind as they run.
ghost use Rattle.std.specs.Prelude.{◌≡◌, length};
ghost use Rattle.keyfiles.specs.Keys.{inspector_kind, inspector_says, key_kind, key_says, key_of, key_signature, KeyOwns};
ghost use Rattle.keyfiles.specs.KeyLaws.{inspector_range, key_range, key_lawful, key_sized, key_genuine, own_alike};

use answers::Refusal;
use blake2s::Blake2s;
use keys::{Inspector, Sealer, TagInspector, TagKey};
use lms::{LmsKey, LmsPublic};
use sha256::Sha256;

#[derive(Drop)]
pub enum AnyKey {
    TagSha256(TagKey<Sha256>),
    TagBlake2s(TagKey<Blake2s>),
    Lms(LmsKey),
}

#[derive(Drop)]
pub enum AnyInspector {
    TagSha256(TagInspector<Sha256>),
    TagBlake2s(TagInspector<Blake2s>),
    Lms(LmsPublic),
}

// The same question to a key of whatever kind.
macro_rules! ask {
    ($any:expr, $key:ident => $answer:expr) => {
        match $any {
            AnyKey::TagSha256($key) => $answer,
            AnyKey::TagBlake2s($key) => $answer,
            AnyKey::Lms($key) => $answer,
        }
    };
}

impl Inspector for AnyInspector {
    ghost kind = { inspector_kind };

    ghost says = { inspector_says };

    ghost kind_range = { inspector_range };

    fn kind_byte(&self) -> u8 {
        match self {
            AnyInspector::TagSha256(inspector) => inspector.kind_byte(),
            AnyInspector::TagBlake2s(inspector) => inspector.kind_byte(),
            AnyInspector::Lms(inspector) => inspector.kind_byte(),
        }
    }

    fn inspect(&self, number: u32, text: &[u8], signature: &[u8]) -> bool {
        match self {
            AnyInspector::TagSha256(inspector) => inspector.inspect(number, text, signature),
            AnyInspector::TagBlake2s(inspector) => inspector.inspect(number, text, signature),
            AnyInspector::Lms(inspector) => inspector.inspect(number, text, signature),
        }
    }
}

impl Inspector for AnyKey {
    ghost kind = { key_kind };

    ghost says = { key_says };

    ghost kind_range = { key_range };

    fn kind_byte(&self) -> u8 {
        ask!(self, key => key.kind_byte())
    }

    fn inspect(&self, number: u32, text: &[u8], signature: &[u8]) -> bool {
        ask!(self, key => key.inspect(number, text, signature))
    }
}

impl Sealer for AnyKey {
    type Own = AnyInspector;

    ghost key = { key_of };

    ghost signature = { key_signature };

    ghost owns = { KeyOwns };

    ghost lawful = { key_lawful };

    ghost sized = { key_sized };

    ghost genuine = { key_genuine };

    ghost own_alike = { own_alike };

    fn key_name(&self) -> [u8; 8] {
        ask!(self, key => key.key_name())
    }

    fn next_number(&self) -> u64 {
        ask!(self, key => key.next_number())
    }

    fn count_left(&self) -> u64 {
        ask!(self, key => key.count_left())
    }

    fn signature_len(&self) -> usize {
        ask!(self, key => key.signature_len())
    }

    fn own(&self) -> AnyInspector {
        match self {
            AnyKey::TagSha256(key) => AnyInspector::TagSha256(key.own()),
            AnyKey::TagBlake2s(key) => AnyInspector::TagBlake2s(key.own()),
            AnyKey::Lms(key) => AnyInspector::Lms(key.own()),
        }
    }

    fn draw_number(&mut self) -> Result<u32, Refusal> {
        ask!(self, key => key.draw_number())
    }

    fn sign(&self, number: u32, text: &[u8], out: &mut [u8]) -> Result<(), Refusal> {
        ask!(self, key => key.sign(number, text, out))
    }
}
