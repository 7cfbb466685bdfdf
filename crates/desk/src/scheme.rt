// The digest and the family that a seal part names.
ghost use Rattle.std.specs.Prelude.{◌≡◌};
ghost use Rattle.std.specs.Option.{option_map};
ghost use Rattle.std.specs.Result.{result_map_both};
ghost use Rattle.families.specs.Any.{any_shape};
ghost use Rattle.desk.specs.Named.{digest_numbered, family_named, scheme_by, scheme_named};

use answers::Refusal;
use families::any::AnyFamily;
use seals::{PartHead, head_of};
use told::Algorithm;

// The digest of a number, if there is one.
pub fn digest_numbered(kind: u8) -> Option<Algorithm>
    ensures { result ≡ digest_numbered kind }
{
    match kind {
        1 => Some(Algorithm::Sha256),
        2 => Some(Algorithm::Blake2s),
        _ => None,
    }
}

fn make_family(head: PartHead) -> Option<AnyFamily>
    ensures { option_map any_shape result ≡ family_named head }
{
    let n = head.blocks;
    match head.kind {
        1 => AnyFamily::single(n).ok(),
        2 => AnyFamily::halves(n).ok(),
        3 => AnyFamily::polynomial(head.q, head.k, n).ok(),
        4 => AnyFamily::plane(n).ok(),
        _ => None,
    }
}

// Where it names no digest or no family that is known here, the seal is by another scheme.
pub(crate) fn scheme_of(part: &[u8]) -> Result<(Algorithm, AnyFamily), Refusal>
    ensures { result_map_both (λ r. scheme_by r.0 (any_shape r.1)) (λ e. e) result ≡ scheme_named part.now }
{
    let head = head_of(part).ok_or(Refusal::OtherScheme)?;
    let digest = digest_numbered(head.digest_kind).ok_or(Refusal::OtherScheme)?;
    let family = make_family(head).ok_or(Refusal::OtherScheme)?;
    Ok((digest, family))
}
