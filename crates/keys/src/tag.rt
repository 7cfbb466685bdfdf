// Tag keys, kind 1: the signature is the HMAC of the text, and who inspects holds the same secret.
ghost use Rattle.std.specs.Prelude.{◌≡◌, ◌≤◌, length};
ghost use Rattle.std.specs.Result.{result_map_both};
ghost use Rattle.digests.specs.Hmac.{hmac_of};
ghost use Rattle.keys.specs.Tag.{tag_limit, tag_says, tag_key, tag_key_answer};
ghost use Rattle.std.proofs.Common.{rules};
ghost use Rattle.keys.specs.Same.{same_self};

use crate::buffer::put_front;
use crate::{Inspector, Sealer};
use answers::Refusal;
use digests::{Digest, hmac, same_bytes};
use std::marker::PhantomData;

const KIND: u8 = 1;

const SIZE: usize = 32;

const LIMIT: u32 = 1_000_000;

// Holds no digest: `D` only says which one the tag is made by.
#[derive(Drop)]
pub struct TagInspector<D> {
    secret: [u8; 32],
    digest: PhantomData<D>,
}

impl<D: Digest> TagInspector<D> {
    pub fn new(secret: [u8; 32]) -> TagInspector<D>
        ensures { result.secret ≡ secret }
    {
        TagInspector {
            secret,
            digest: PhantomData,
        }
    }

    // The tag to a text: the signature that it says yes to.
    fn tag(&self, text: &[u8]) -> [u8; 32]
        ensures { result ≡ hmac_of D.digest D.BLOCK self.now.secret text.now }
    {
        hmac::<D>(&self.secret, text)
    }
}

impl<D: Digest> Inspector for TagInspector<D> {
    ghost kind = { λ _. 1 };

    ghost says = { λ i _ text signature. tag_says D.digest D.BLOCK i.secret text signature };

    ghost kind_range = { Prim.search rules };

    fn kind_byte(&self) -> u8 {
        KIND
    }

    fn inspect(&self, _number: u32, text: &[u8], signature: &[u8]) -> bool {
        same_bytes(signature, &self.tag(text))
    }
}

// A key of 1,000,000 numbers, from 0 on.
#[derive(Drop)]
pub struct TagKey<D> {
    inspector: TagInspector<D>,
    name: [u8; 8],
    next: u32,
    // A law sees the name as a list, whose length no type says.
    ghost eight: { length name ≡ 8 },
    ghost within: { next ≤ tag_limit },
}

impl<D: Digest> TagKey<D> {
    // The key goes on at `next`: 0 for a new one, and else what was kept of the last run.
    pub fn new(secret: [u8; 32], name: [u8; 8], next: u32) -> Result<TagKey<D>, Refusal>
        ensures { result_map_both (λ k. (k.inspector.secret, tag_key k.name k.next)) (λ e. e) result ≡ tag_key_answer secret name next }
    {
        if next > LIMIT {
            return Err(Refusal::NoSuchParameter);
        }
        Ok(TagKey {
            inspector: TagInspector::new(secret),
            name,
            next,
        })
    }
}

impl<D: Digest> Inspector for TagKey<D> {
    ghost kind = { λ _. 1 };

    ghost says = { λ k _ text signature. tag_says D.digest D.BLOCK k.inspector.secret text signature };

    ghost kind_range = { Prim.search rules };

    fn kind_byte(&self) -> u8 {
        self.inspector.kind_byte()
    }

    fn inspect(&self, number: u32, text: &[u8], signature: &[u8]) -> bool {
        self.inspector.inspect(number, text, signature)
    }
}

impl<D: Digest> Sealer for TagKey<D> {
    type Own = TagInspector<D>;

    ghost key = { λ k. tag_key k.name k.next };

    ghost signature = { λ k _ text. hmac_of D.digest D.BLOCK k.inspector.secret text };

    ghost owns = { λ k o. o.secret ≡ k.inspector.secret };

    ghost lawful = { Prim.search rules };

    ghost sized = { Prim.search rules };

    ghost genuine = { λ k number text drawn. same_self (hmac_of D.digest D.BLOCK k.inspector.secret text) };

    ghost own_alike = { Prim.search rules };

    fn key_name(&self) -> [u8; 8] {
        self.name
    }

    fn next_number(&self) -> u64 {
        u64::from(self.next)
    }

    fn count_left(&self) -> u64 {
        u64::from(LIMIT - self.next)
    }

    fn signature_len(&self) -> usize {
        SIZE
    }

    fn own(&self) -> TagInspector<D> {
        TagInspector::new(self.inspector.secret)
    }

    fn draw_number(&mut self) -> Result<u32, Refusal> {
        if self.next == LIMIT {
            return Err(Refusal::NoneLeft);
        }
        let number = self.next;
        self.next += 1;
        Ok(number)
    }

    fn sign(&self, number: u32, text: &[u8], out: &mut [u8]) -> Result<(), Refusal> {
        if number >= self.next {
            return Err(Refusal::NotDrawn);
        }
        if out.len() < SIZE {
            return Err(Refusal::NoRoom);
        }
        put_front(out, &self.inspector.tag(text));
        Ok(())
    }
}
