// One-time signatures of section 4, with the private keys of Appendix A, over any digest.
ghost use Rattle.std.specs.Prelude.{◌≡◌, ℕ, ◌+◌, ◌-◌, ◌*◌, ◌<◌, ◌≤◌, ◌++◌, take};
ghost use Rattle.lms.specs.Strings.{u8str, u16str, u32str, bytes_at, concat_all, sum_all, coefficient, d_mesg};
ghost use Rattle.lms.specs.Lmots.{chain, checksum, checked_hash, lmots_candidate};
ghost use Rattle.lms.specs.Lms.{chain_start, leaf_randomizer, leaf_key, leaf_signature};

use crate::strings::{CHAINS_AT, ONE_TIME_TYPE_AT, RANDOMIZER_AT, SIZE, hash_at, put};
use digests::Digest;

pub(crate) const TYPECODE: u32 = 4;

// p of the parameter set.
const CHAINS: u16 = 34;

// 2^w - 1: how many steps a chain has.
const LAST: u8 = 255;

// Stands for the number of a step in the hashes of Appendix A. No chain has such a step.
const PRIVATE: u8 = 0xff;

// Stands for the number of a chain in the randomizer's hash.
const RANDOMIZER: u16 = 0xfffd;

const D_PBLC: u16 = 0x8080;

const D_MESG: u16 = 0x8181;

// A leaf of a key, by the key's identifier I and the leaf's number q.
#[derive(Clone, Copy)]
pub(crate) struct Leaf {
    pub id: [u8; 16],
    pub number: u32,
    ghost within: { number < 32 },
}

impl Leaf {
    // One step of a chain, or a hash of Appendix A. Its input is one array, so that the digest takes it at once.
    #[inline(always)]
    fn step<D: Digest>(&self, chain: u16, step: u8, value: &[u8; 32]) -> [u8; 32]
        ensures { result ≡ D.digest (self.now.id ++ u32str self.now.number ++ u16str chain ++ u8str step ++ value.now) }
    {
        let mut digest = D::start();
        digest.take(&self.input(chain, step, value));
        digest.end()
    }

    #[inline(always)]
    #[tactic(auto, unfolding(crate::specs::Strings::u8str, crate::specs::Strings::u16str, crate::specs::Strings::u32str))]
    fn input(&self, chain: u16, step: u8, value: &[u8; 32]) -> [u8; 55]
        ensures { result ≡ self.now.id ++ u32str self.now.number ++ u16str chain ++ u8str step ++ value.now }
    {
        let mut input = [0; 55];
        put(&mut input, 0, &self.id);
        put(&mut input, 16, &self.number.to_be_bytes());
        put(&mut input, 20, &chain.to_be_bytes());
        put(&mut input, 22, &[step]);
        put(&mut input, 23, value);
        input
    }

    // A chain from its value before one step to that before another.
    #[tactic(auto, using(crate::proofs::Loops::chain_none, crate::proofs::Loops::chain_more))]
    fn chain<D: Digest>(&self, number: u16, from: u8, to: u8, start: [u8; 32]) -> [u8; 32]
        requires { from ≤ to }
        ensures { result ≡ chain D.digest self.now.id self.now.number number from to start }
    {
        let mut value = start;
        for step in from..to {
            value = self.step::<D>(number, step, &value);
        }
        value
    }

    #[tactic(auto, unfolding(crate::specs::Lms::chain_start))]
    fn chain_start<D: Digest>(&self, seed: &[u8; 32], number: u16) -> [u8; 32]
        ensures { result ≡ chain_start D.digest self.now.id seed.now self.now.number number }
    {
        self.step::<D>(number, PRIVATE, seed)
    }

    #[tactic(auto, unfolding(crate::specs::Lms::leaf_randomizer))]
    fn randomizer<D: Digest>(&self, seed: &[u8; 32]) -> [u8; 32]
        ensures { result ≡ leaf_randomizer D.digest self.now.id seed.now self.now.number }
    {
        self.step::<D>(RANDOMIZER, PRIVATE, seed)
    }

    // K of Algorithm 1: all chains go to their ends.
    #[tactic(auto, using(crate::proofs::Loops::concat_none, crate::proofs::Loops::concat_after), unfolding(crate::specs::Lmots::lmots_public, crate::specs::Strings::d_pblc))]
    pub(crate) fn public<D: Digest>(&self, seed: &[u8; 32]) -> [u8; 32]
        ensures { result ≡ leaf_key D.digest self.now.id seed.now self.now.number }
    {
        let mut digest = begun::<D>(&self.id, self.number, D_PBLC);
        for i in 0..CHAINS {
            let start = self.chain_start::<D>(seed, i);
            digest.take(&self.chain::<D>(i, 0, LAST, start));
        }
        digest.end()
    }

    // The coefficients of Q || Cksm(Q), which are its bytes, since w is 8.
    #[tactic(auto, unfolding(crate::specs::Lmots::checked_hash))]
    fn coefficients<D: Digest>(&self, randomizer: &[u8; 32], message: &[u8]) -> [u8; 34]
        ensures { result ≡ checked_hash D.digest self.now.id self.now.number randomizer.now message.now }
    {
        with_checksum(self.message_hash::<D>(randomizer, message))
    }

    #[tactic(auto, unfolding(crate::specs::Strings::d_mesg))]
    fn message_hash<D: Digest>(&self, randomizer: &[u8; 32], message: &[u8]) -> [u8; 32]
        ensures { result ≡ D.digest (self.now.id ++ u32str self.now.number ++ d_mesg ++ randomizer.now ++ message.now) }
    {
        let mut digest = begun::<D>(&self.id, self.number, D_MESG);
        digest.take(randomizer);
        digest.take(message);
        digest.end()
    }

    // Algorithm 3, written behind the leaf's number.
    pub(crate) fn sign<D: Digest>(
        &self,
        seed: &[u8; 32],
        message: &[u8],
        signature: &mut [u8; SIZE],
    )
        ensures { take 1128 signature.new
            ≡ take 4 signature.old ++ leaf_signature D.digest self.now.id seed.now self.now.number message.now }
    {
        let randomizer = self.randomizer::<D>(seed);
        put(signature, ONE_TIME_TYPE_AT, &TYPECODE.to_be_bytes());
        put(signature, RANDOMIZER_AT, &randomizer);
        let coefficients = self.coefficients::<D>(&randomizer, message);
        self.sign_chains::<D>(seed, &coefficients, signature);
    }

    #[tactic(auto, using(crate::proofs::Loops::concat_none, crate::proofs::Loops::concat_after, crate::proofs::Loops::coefficient_of_byte))]
    fn sign_chains<D: Digest>(
        &self,
        seed: &[u8; 32],
        coefficients: &[u8; 34],
        signature: &mut [u8; SIZE],
    )
        ensures { take 1128 signature.new ≡ take 40 signature.old ++ concat_all 34 (λ i.
            let start = chain_start D.digest self.now.id seed.now self.now.number i in
            chain D.digest self.now.id self.now.number i 0 (coefficient coefficients.now i 8) start) }
    {
        for i in 0..CHAINS {
            let number = usize::from(i);
            let start = self.chain_start::<D>(seed, i);
            let value = self.chain::<D>(i, 0, coefficients[number], start);
            put(signature, CHAINS_AT + 32 * number, &value);
        }
    }

    // Kc of Algorithm 4b: all chains go on to their ends.
    #[tactic(auto, using(crate::proofs::Loops::concat_none, crate::proofs::Loops::concat_after, crate::proofs::Loops::chain_end_at, crate::proofs::Loops::lmots_candidate_at), unfolding(crate::specs::Strings::d_pblc))]
    pub(crate) fn candidate<D: Digest>(&self, message: &[u8], signature: &[u8; SIZE]) -> [u8; 32]
        ensures { result ≡ lmots_candidate D.digest self.now.id self.now.number message.now (bytes_at signature.now 4 1124) }
    {
        let coefficients = self.coefficients::<D>(&hash_at(signature, RANDOMIZER_AT), message);
        let mut digest = begun::<D>(&self.id, self.number, D_PBLC);
        for i in 0..CHAINS {
            let number = usize::from(i);
            let value = hash_at(signature, CHAINS_AT + 32 * number);
            digest.take(&self.chain::<D>(i, coefficients[number], LAST, value));
        }
        digest.end()
    }
}

// The digest after I, a number and a mark: so every input begins but that of a step.
#[tactic(auto, unfolding(crate::specs::Strings::u16str, crate::specs::Strings::u32str))]
pub(crate) fn begun<D: Digest>(id: &[u8; 16], number: u32, mark: u16) -> D
    ensures { D.took result (id.now ++ u32str number ++ u16str mark) }
{
    let mut digest = D::start();
    digest.take(id);
    digest.take(&number.to_be_bytes());
    digest.take(&mark.to_be_bytes());
    digest
}

// Q || Cksm(Q).
fn with_checksum(hash: [u8; 32]) -> [u8; 34]
    ensures { result ≡ hash ++ checksum hash }
{
    let mut all = [0; 34];
    put(&mut all, 0, &hash);
    put(&mut all, 32, &checksum(&hash));
    all
}

// Algorithm 2. Nothing is shifted, since ls is 0.
#[tactic(auto, using(crate::proofs::Loops::checksum_is), unfolding(crate::specs::Strings::u16str))]
fn checksum(hash: &[u8; 32]) -> [u8; 2]
    ensures { result ≡ checksum hash.now }
{
    sum_to_last(hash).to_be_bytes()
}

// How many steps all coefficients of a hash are before their last.
#[tactic(auto, using(crate::proofs::Loops::gaps_none, crate::proofs::Loops::gaps_more, crate::proofs::Loops::gaps_small))]
fn sum_to_last(hash: &[u8; 32]) -> u16
    ensures { result ≡ sum_all 32 (λ i. 255 - coefficient hash.now i 8) }
{
    let mut sum = 0;
    for byte in hash {
        sum += u16::from(LAST - byte);
    }
    sum
}
