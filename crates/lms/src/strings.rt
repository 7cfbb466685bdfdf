// Writing strings into arrays piece by piece, and reading them from a signature.
ghost use Rattle.std.specs.Prelude.{◌≡◌, ◌+◌, ◌≤◌, ◌++◌, length, take, drop};
ghost use Rattle.lms.specs.Strings.{str_to_u32, bytes_at};

// The bytes of a signature.
pub(crate) const SIZE: usize = 1292;

// Where its parts stand behind the leaf's number.
pub(crate) const ONE_TIME_TYPE_AT: usize = 4;

pub(crate) const RANDOMIZER_AT: usize = 8;

pub(crate) const CHAINS_AT: usize = 40;

pub(crate) const TYPE_AT: usize = 1128;

pub(crate) const PATH_AT: usize = 1132;

// Puts a piece behind the bytes before it.
#[inline(always)]
pub(crate) fn put<const N: usize>(out: &mut [u8; N], at: usize, piece: &[u8])
    requires { at + length piece.now ≤ N }
    ensures { take (at + length piece.now) out.new ≡ take at out.old ++ piece.now }
{
    let bytes = &mut out[..];
    bytes[at..at + piece.len()].copy_from_slice(piece);
}

// A hash that stands in a signature.
#[tactic(auto, unfolding(crate::specs::Strings::bytes_at))]
pub(crate) fn hash_at(signature: &[u8; SIZE], at: usize) -> [u8; 32]
    requires { at + 32 ≤ 1292 }
    ensures { result ≡ bytes_at signature.now at 32 }
{
    let mut hash = [0; 32];
    hash.copy_from_slice(&signature[at..at + 32]);
    hash
}

// A number that stands in a signature.
#[tactic(auto, unfolding(crate::specs::Strings::bytes_at, crate::specs::Strings::str_to_u32))]
pub(crate) fn number_at(signature: &[u8; SIZE], at: usize) -> u32
    requires { at + 4 ≤ 1292 }
    ensures { result ≡ str_to_u32 (bytes_at signature.now at 4) }
{
    u32::from_be_bytes([
        signature[at],
        signature[at + 1],
        signature[at + 2],
        signature[at + 3],
    ])
}

// Writes bytes to the front, and leaves what stands behind them.
#[tactic(auto, using(std::proofs::lemmas::List::take_at))]
pub(crate) fn put_front(out: &mut [u8], bytes: &[u8])
    requires { length bytes.now ≤ length out.old }
    ensures whole { out.new ≡ bytes.now ++ drop (length bytes.now) out.old }
    ensures front { take (length bytes.now) out.new ≡ bytes.now }
{
    out[..bytes.len()].copy_from_slice(bytes);
}
