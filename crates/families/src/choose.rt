// Which family a sheet gets, by its block count and how many changed blocks are to be named.
ghost use Rattle.std.specs.Prelude.{◌≡◌, ◌≤◌, true, MatchResult};
ghost use Rattle.std.specs.Result.{result_map_both};
ghost use Rattle.answers.specs.declared.Refusal.TheVariants.{NoSuchParameter};
ghost use Rattle.families.specs.Any.{any_shape};
ghost use Rattle.families.specs.Choice.{pairs, all_offered, fits, first_fit, choose_answer, Chosen, NothingFits};

use crate::any::AnyFamily;
use crate::blocks::BlockCount;
use crate::polynomial::power;
use answers::Refusal;

// q and k on offer, by q and then k. Pairs and no struct: a seal writes the two numbers apart, and so do the definitions.
static PAIRS: [(u8, u8); 18] = [
    (5, 2),
    (5, 3),
    (5, 4),
    (7, 2),
    (7, 3),
    (7, 4),
    (8, 2),
    (8, 3),
    (8, 4),
    (11, 2),
    (11, 3),
    (11, 4),
    (13, 2),
    (13, 3),
    (13, 4),
    (16, 2),
    (16, 3),
    (16, 4),
];

// Halves for one changed block; otherwise the first pair of strength exactly d and with a polynomial for each block.
pub fn choose(n: u16, d: u16) -> Result<AnyFamily, Refusal>
    ensures answer { result_map_both any_shape (λ e. e) result ≡ choose_answer n d }
    ensures first { MatchResult result (λ f. Chosen n d (any_shape f)) (λ e. e ≡ NoSuchParameter → NothingFits n d) }
{
    let n = BlockCount::<512>::new(n)?.get();
    if d == 1 {
        return AnyFamily::halves(n);
    }
    let Some((q, k)) = offered_pair(n, d) else {
        return Err(Refusal::NoSuchParameter);
    };
    AnyFamily::polynomial(q, k, n)
}

// Apart from the search, which is proved over any list of pairs on offer.
fn offered_pair(n: u16, d: u16) -> Option<(u8, u8)>
    ensures { result ≡ first_fit n d pairs }
{
    first_pair(&PAIRS, n, d)
}

fn first_pair(pairs: &[(u8, u8)], n: u16, d: u16) -> Option<(u8, u8)>
    requires { all_offered pairs.now ≡ true }
    ensures { result ≡ first_fit n d pairs.now }
{
    for &(q, k) in pairs {
        if is_fit(q, k, n, d) {
            return Some((q, k));
        }
    }
    None
}

// Whether a pair has strength exactly d, and a polynomial for each of n blocks.
fn is_fit(q: u8, k: u8, n: u16, d: u16) -> bool
    requires { (1 ≤ q) × (q ≤ 16) × (2 ≤ k) × (k ≤ 4) }
    ensures { result ≡ fits n d (q, k) }
{
    (u16::from(q) - 1) / (u16::from(k) - 1) == d && u32::from(n) <= power(q, k)
}
