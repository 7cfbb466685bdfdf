// Calls that say by what is sealed: the digest, the family, the key and its numbers.
ghost use Rattle.families.specs.Any.{any_shape};
ghost use Rattle.keyfiles.specs.Making.{held};
ghost use Rattle.nazkoiber.specs.Script.{digest, family, choose, rows, key, draw, burn};
ghost use Rattle.nazkoiber.specs.State.{state};
ghost use Rattle.nazkoiber.specs.Answering.{Answered, FamilyTaken, KeyTaken};

use super::{Bench, Missing, Stop};
use answers::BlockNumber;
use blake2s::Blake2s;
use digests::Digest;
use families::any::AnyFamily;
use families::choose::choose;
use keyfiles::{AnyKey, KeyWords};
use keys::{Inspector, Sealer, burn, draw};
use scripts::Hex;
use sha256::Sha256;
use told::{Algorithm, FamilyName, family_text, rows_text};

impl Bench {
    pub(super) fn set_digest(&mut self, algorithm: Algorithm) -> Result<String, Stop>
        ensures { Answered (digest algorithm) (state self.old) (state self.new) result }
    {
        self.digest = algorithm;
        let kind = match algorithm {
            Algorithm::Sha256 => Sha256::KIND,
            Algorithm::Blake2s => Blake2s::KIND,
        };
        Ok(format!(in self.alloc; "digest {kind}")?)
    }

    pub(super) fn set_family(&mut self, name: FamilyName) -> Result<String, Stop>
        ensures { Answered (family name) (state self.old) (state self.new) result }
    {
        self.take_family(name.make()?)
    }

    pub(super) fn choose(&mut self, n: u16, d: u16) -> Result<String, Stop>
        ensures { Answered (choose n d) (state self.old) (state self.new) result }
    {
        self.take_family(choose(n, d)?)
    }

    fn take_family(&mut self, family: AnyFamily) -> Result<String, Stop>
        ensures { FamilyTaken (any_shape family) (state self.old) (state self.new) result }
    {
        let answer = family_text(self.alloc, &family)?;
        self.family = Some(family);
        Ok(answer)
    }

    pub(super) fn rows(&self, block: BlockNumber) -> Result<String, Stop>
        ensures { Answered (rows block.0) (state self.now) (state self.now) result }
    {
        let family = self.family.as_ref().ok_or(Missing::NoFamily)?;
        Ok(rows_text(self.alloc, family, block)?)
    }

    pub(super) fn set_key(&mut self, words: KeyWords) -> Result<String, Stop>
        ensures { Answered (key words) (state self.old) (state self.new) result }
    {
        self.take_key(words.make()?)
    }

    // Another key takes the acceptance back.
    fn take_key(&mut self, key: AnyKey) -> Result<String, Stop>
        ensures { KeyTaken (held key) (state self.old) (state self.new) result }
    {
        let kind = key.kind_byte();
        let name = Hex(&key.key_name());
        let next = key.next_number();
        let left = key.count_left();
        let answer = format!(in self.alloc; "key {kind} {name} {next} {left}")?;
        self.accepted = false;
        self.key = Some(key);
        Ok(answer)
    }

    pub(super) fn draw(&mut self) -> Result<String, Stop>
        ensures { Answered draw (state self.old) (state self.new) result }
    {
        let key = self.key.as_mut().ok_or(Missing::NoKey)?;
        if self.hand.is_some() {
            return Err(Stop::Lacking(Missing::HandFull));
        }
        let drawn = draw(key)?;
        let number = drawn.number();
        self.hand = Some(drawn);
        Ok(format!(in self.alloc; "number {number}")?)
    }

    pub(super) fn burn(&mut self) -> Result<String, Stop>
        ensures { Answered burn (state self.old) (state self.new) result }
    {
        let drawn = self.hand.take().ok_or(Missing::HandEmpty)?;
        let number = burn(drawn);
        Ok(format!(in self.alloc; "burned {number}")?)
    }
}
