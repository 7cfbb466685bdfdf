// HMAC over any digest.
ghost use Rattle.std.specs.Prelude.{◌≡◌, ◌++◌, replicate};
ghost use Rattle.digests.specs.Hmac.{under, padded, hmac_of};

use crate::Digest;

const INNER: u8 = 0x36;

const OUTER: u8 = 0x5c;

pub fn hmac<D: Digest>(key: &[u8; 32], text: &[u8]) -> [u8; 32]
    ensures { result ≡ hmac_of D.digest D.BLOCK key.now text.now }
{
    let inner = behind_pad::<D>(key, INNER, text);
    behind_pad::<D>(key, OUTER, &inner)
}

// The digest of a text behind the padded key.
fn behind_pad<D: Digest>(key: &[u8; 32], mask: u8, text: &[u8]) -> [u8; 32]
    ensures { result ≡ D.digest (padded mask D.BLOCK key.now ++ text.now) }
{
    let mut digest = D::start();
    digest.take(&masked(key, mask)[..D::BLOCK]);
    digest.take(text);
    digest.end()
}

// The key under a mask, filled up to the longest block with the mask. No `map` of the key: it measured a quarter of a whole tag.
fn masked(key: &[u8; 32], mask: u8) -> [u8; 64]
    ensures { result ≡ under mask key.now ++ replicate 32 mask }
{
    let mut pad = [mask; 64];
    for (index, byte) in key.iter().enumerate() {
        pad[index] = byte ^ mask;
    }
    pad
}
