// The tree of sections 5.3 and 5.4, over any digest.
ghost use Rattle.std.specs.Prelude.{◌≡◌, ◌+◌, ◌*◌, ◌/◌, ◌%◌, ◌^◌, ◌<◌, ◌++◌, take, bit_xor, nat_eq, if◌then◌else◌};
ghost use Rattle.lms.specs.Strings.{u32str, bytes_at, concat_all, d_leaf, d_intr};
ghost use Rattle.lms.specs.Lms.{climb};
ghost use Rattle.lms.specs.Nodes.{Nodes, LeavesTo, node_at};

use crate::ots::{Leaf, begun};
use crate::strings::{PATH_AT, SIZE, hash_at, put};
use digests::Digest;

pub(crate) const TYPECODE: u32 = 5;

// 2^h: how many leaves a tree has, and the node that the first of them is.
pub(crate) const LEAVES: u32 = 32;

// The nodes T[1] to T[63], each at its number. Nothing stands at 0.
pub(crate) type Nodes = [[u8; 32]; 64];

const D_LEAF: u16 = 0x8282;

const D_INTR: u16 = 0x8383;

// A leaf of the tree, from its one-time public key.
#[tactic(auto, unfolding(crate::specs::Strings::d_leaf))]
fn leaf_node<D: Digest>(leaf: &Leaf, key: &[u8; 32]) -> [u8; 32]
    ensures { result ≡ D.digest (leaf.now.id ++ u32str (32 + leaf.now.number) ++ d_leaf ++ key.now) }
{
    let mut digest = begun::<D>(&leaf.id, LEAVES + leaf.number, D_LEAF);
    digest.take(key);
    digest.end()
}

// An inner node, from its two children.
#[tactic(auto, unfolding(crate::specs::Strings::d_intr))]
fn inner_node<D: Digest>(id: &[u8; 16], node: u32, left: &[u8; 32], right: &[u8; 32]) -> [u8; 32]
    ensures { result ≡ D.digest (id.now ++ u32str node ++ d_intr ++ left.now ++ right.now) }
{
    let mut digest = begun::<D>(id, node, D_INTR);
    digest.take(left);
    digest.take(right);
    digest.end()
}

// The parent of a node, from the node and its sibling. An odd node stands at the right.
fn parent<D: Digest>(id: &[u8; 16], node: u32, value: &[u8; 32], sibling: &[u8; 32]) -> [u8; 32]
    ensures { result ≡ D.digest (if nat_eq (node % 2) 1
        then id.now ++ u32str (node / 2) ++ d_intr ++ sibling.now ++ value.now
        else id.now ++ u32str (node / 2) ++ d_intr ++ value.now ++ sibling.now) }
{
    if node % 2 == 1 {
        inner_node::<D>(id, node / 2, sibling, value)
    } else {
        inner_node::<D>(id, node / 2, value, sibling)
    }
}

// All nodes of a key, from the leaves down to the root. A `while` and no `rev`, of whose items the library says nothing for a range.
pub(crate) fn nodes<D: Digest>(id: &[u8; 16], seed: &[u8; 32]) -> Nodes
    ensures { Nodes D.digest id.now seed.now (node_at result) }
{
    let mut nodes = leaves::<D>(id, seed);
    let mut node = LEAVES;
    while node > 1 {
        node -= 1;
        let number = node as usize;
        nodes[number] = inner_node::<D>(id, node, &nodes[2 * number], &nodes[2 * number + 1]);
    }
    nodes
}

// The leaves in their places, and nothing else yet.
fn leaves<D: Digest>(id: &[u8; 16], seed: &[u8; 32]) -> Nodes
    ensures { LeavesTo D.digest id.now seed.now result 64 }
{
    let mut nodes = [[0; 32]; 64];
    for number in 0..LEAVES {
        let leaf = Leaf { id: *id, number };
        let key = leaf.public::<D>(seed);
        nodes[(LEAVES + number) as usize] = leaf_node::<D>(&leaf, &key);
    }
    nodes
}

// The path of a leaf, written behind all that stands before it in a signature.
pub(crate) fn sign_path(nodes: &Nodes, leaf: &Leaf, signature: &mut [u8; SIZE])
    ensures { take 1292 signature.new
        ≡ take 1132 signature.old ++ concat_all 5 (λ i. node_at nodes.now (bit_xor ((32 + leaf.now.number) / 2 ^ i) 1)) }
{
    let mut node = (LEAVES + leaf.number) as usize;
    for i in 0..5 {
        put(signature, PATH_AT + 32 * i, &nodes[node ^ 1]);
        node /= 2;
    }
}

// Tc of Algorithm 6a, from the leaf's candidate Kc and the path.
pub(crate) fn root_candidate<D: Digest>(
    leaf: &Leaf,
    key: &[u8; 32],
    signature: &[u8; SIZE],
) -> [u8; 32]
    ensures { let node = 32 + leaf.now.number in
        result ≡ climb D.digest leaf.now.id (λ i. bytes_at signature.now (1132 + 32 * i) 32) 5 0 node
        (D.digest (leaf.now.id ++ u32str node ++ d_leaf ++ key.now)) }
{
    let mut node = LEAVES + leaf.number;
    let mut value = leaf_node::<D>(leaf, key);
    for i in 0..5 {
        value = parent::<D>(&leaf.id, node, &value, &path_at(signature, i));
        node /= 2;
    }
    value
}

// The node of the path on a level, from the leaves up.
fn path_at(signature: &[u8; SIZE], level: usize) -> [u8; 32]
    requires { level < 5 }
    ensures { result ≡ bytes_at signature.now (1132 + 32 * level) 32 }
{
    hash_at(signature, PATH_AT + 32 * level)
}
