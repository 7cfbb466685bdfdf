// BLAKE2s of RFC 7693, with no key and 32 answer bytes, as a digest.
#![tactic(auto)]

use chain::Chain;
use digests::Buffered;

mod chain;
mod compression;
mod rounds;

pub type Blake2s = Buffered<Chain>;
