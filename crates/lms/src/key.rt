// LMS keys: each leaf of the tree signs one text, under its own number.
ghost use Rattle.std.specs.Prelude.{◌≡◌, ◌≤◌, ◌<◌, ◌++◌, length, take};
ghost use Rattle.std.specs.Result.{result_map_both};
ghost use Rattle.std.proofs.Common.{rules};
ghost use Rattle.lms.specs.Lms.{public_key, lms_root, lms_sign, lms_says};
ghost use Rattle.lms.specs.Nodes.{Nodes, node_at};
ghost use Rattle.lms.specs.Key.{lms_limit, lms_key, lms_key_answer};
ghost use Rattle.lms.specs.KeyLaw.{key_signs, key_sized, key_own_alike};
ghost use Rattle.sha256.specs.Sha256.{sha256_of};

use crate::ots::Leaf;
use crate::public::{KIND, LmsPublic};
use crate::strings::{SIZE, TYPE_AT, put, put_front};
use crate::tree::{self, LEAVES, Nodes};
use answers::Refusal;
use keys::{Inspector, Sealer};
use sha256::Sha256;

// The tree is kept: it costs some 279,000 hashes, and a signature then 4,400.
#[derive(Drop)]
pub struct LmsKey {
    id: [u8; 16],
    seed: [u8; 32],
    nodes: Nodes,
    next: u32,
    // A law sees the identifier as a list, whose length no type says.
    ghost sixteen: { length id ≡ 16 },
    ghost within: { next ≤ lms_limit },
    ghost built: { Nodes sha256_of id seed (node_at nodes) },
}

impl LmsKey {
    // The key goes on at `next`: 0 for a new one, and else what was kept of the last run.
    pub fn new(id: [u8; 16], seed: [u8; 32], next: u32) -> Result<LmsKey, Refusal>
        ensures { result_map_both (λ k. (k.id, k.seed, lms_key k.id k.next)) (λ e. e) result ≡ lms_key_answer id seed next }
    {
        if next > LEAVES {
            return Err(Refusal::NoSuchParameter);
        }
        let nodes = tree::nodes::<Sha256>(&id, &seed);
        Ok(LmsKey {
            id,
            seed,
            nodes,
            next,
        })
    }

    #[tactic(auto, using(crate::specs::TreeLaw::root_among))]
    pub fn public(&self) -> LmsPublic
        ensures id { result.id ≡ self.now.id }
        ensures root { result.root ≡ lms_root sha256_of self.now.id self.now.seed }
    {
        LmsPublic::new(self.id, self.nodes[1])
    }

    // Algorithm 5.
    fn signature(&self, leaf: &Leaf, text: &[u8]) -> [u8; SIZE]
        requires { leaf.now.id ≡ self.now.id }
        ensures { result ≡ lms_sign sha256_of self.now.id self.now.seed leaf.now.number text.now }
    {
        let mut signature = [0; SIZE];
        put(&mut signature, 0, &leaf.number.to_be_bytes());
        leaf.sign::<Sha256>(&self.seed, text, &mut signature);
        put(&mut signature, TYPE_AT, &tree::TYPECODE.to_be_bytes());
        tree::sign_path(&self.nodes, leaf, &mut signature);
        signature
    }
}

impl Inspector for LmsKey {
    ghost kind = { λ _. 2 };

    ghost says = { λ k number text signature. lms_says sha256_of (public_key k.id (lms_root sha256_of k.id k.seed)) number text signature };

    ghost kind_range = { Prim.search rules };

    fn kind_byte(&self) -> u8 {
        KIND
    }

    fn inspect(&self, number: u32, text: &[u8], signature: &[u8]) -> bool {
        self.public().inspect(number, text, signature)
    }
}

impl Sealer for LmsKey {
    type Own = LmsPublic;

    ghost key = { λ k. lms_key k.id k.next };

    ghost signature = { λ k number text. lms_sign sha256_of k.id k.seed number text };

    ghost owns = { λ k o. (o.id ≡ k.id) × (o.root ≡ lms_root sha256_of k.id k.seed) };

    ghost lawful = { Prim.search rules };

    ghost sized = { λ k number text. key_sized k.id k.seed number text };

    ghost genuine = { λ k number text drawn. key_signs k.id k.seed k.next number text k.sixteen k.within drawn };

    ghost own_alike = { λ k o owned. key_own_alike k.id k.seed o.id o.root owned };

    fn key_name(&self) -> [u8; 8] {
        let mut name = [0; 8];
        name.copy_from_slice(&self.id[..8]);
        name
    }

    fn next_number(&self) -> u64 {
        u64::from(self.next)
    }

    fn count_left(&self) -> u64 {
        u64::from(LEAVES - self.next)
    }

    fn signature_len(&self) -> usize {
        SIZE
    }

    fn own(&self) -> LmsPublic {
        self.public()
    }

    fn draw_number(&mut self) -> Result<u32, Refusal> {
        if self.next == LEAVES {
            return Err(Refusal::NoneLeft);
        }
        let number = self.next;
        self.next += 1;
        Ok(number)
    }

    #[tactic(auto, using(crate::specs::KeyLaw::key_sized, crate::specs::KeyLaw::key_writes))]
    fn sign(&self, number: u32, text: &[u8], out: &mut [u8]) -> Result<(), Refusal> {
        if number >= self.next {
            return Err(Refusal::NotDrawn);
        }
        if out.len() < SIZE {
            return Err(Refusal::NoRoom);
        }
        let leaf = Leaf {
            id: self.id,
            number,
        };
        put_front(out, &self.signature(&leaf, text));
        Ok(())
    }
}
