// The calls on an accepted seal part by a digest that is known only when the program runs.
ghost use Rattle.std.specs.Prelude.{◌≡◌, length};
ghost use Rattle.std.specs.Result.{result_map_both};
ghost use Rattle.families.specs.Any.{any_shape};
ghost use Rattle.sheets.specs.Blocks.{blocks_of};
ghost use Rattle.seals.specs.Calls.{check_answer, vouch_answer, confirm_answer, lent_after};
ghost use Rattle.desk.specs.Named.{scheme_by};

use answers::{BlockNumber, Refusal, RowNumber};
use blake2s::Blake2s;
use families::any::AnyFamily;
use seals::Accepted;
use sha256::Sha256;
use sheets::Sheet;
use told::Algorithm;

pub fn check_by(
    digest: Algorithm,
    seal: &Accepted,
    sheet: &Sheet,
    family: &AnyFamily,
    list: &mut [u16],
) -> Result<usize, Refusal>
    ensures answer { result ≡ result_map_both length (λ e. e) (check_answer (scheme_by digest (any_shape family.now)) seal.now.part.now (blocks_of sheet.now) (length list.old)) }
    ensures list { list.new ≡ lent_after (check_answer (scheme_by digest (any_shape family.now)) seal.now.part.now (blocks_of sheet.now) (length list.old)) list.old }
{
    match digest {
        Algorithm::Sha256 => seal.check::<Sha256, _>(sheet, family, list),
        Algorithm::Blake2s => seal.check::<Blake2s, _>(sheet, family, list),
    }
}

pub fn vouch_by(
    digest: Algorithm,
    seal: &Accepted,
    sheet: &Sheet,
    family: &AnyFamily,
    block: BlockNumber,
    offered: &[u8],
) -> Result<(RowNumber, usize), Refusal>
    ensures { result_map_both (λ r. (r.0.0, r.1)) (λ e. e) result ≡ vouch_answer (scheme_by digest (any_shape family.now)) seal.now.part.now (blocks_of sheet.now) block.0 offered.now }
{
    match digest {
        Algorithm::Sha256 => seal.vouch::<Sha256, _>(sheet, family, block, offered),
        Algorithm::Blake2s => seal.vouch::<Blake2s, _>(sheet, family, block, offered),
    }
}

pub fn confirm_by(
    digest: Algorithm,
    seal: &Accepted,
    family: &AnyFamily,
    block: BlockNumber,
    row: RowNumber,
    offered: &[u8],
    excerpt: &[u8],
) -> Result<(), Refusal>
    ensures { result ≡ confirm_answer (scheme_by digest (any_shape family.now)) seal.now.part.now block.0 row.0 offered.now excerpt.now }
{
    match digest {
        Algorithm::Sha256 => seal.confirm::<Sha256, _>(family, block, row, offered, excerpt),
        Algorithm::Blake2s => seal.confirm::<Blake2s, _>(family, block, row, offered, excerpt),
    }
}
