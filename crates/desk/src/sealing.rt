// Sealing a sheet, and the file of a sheet and its seal part, in memory of their own.
ghost use Rattle.std.specs.Prelude.{◌≡◌, ◌*◌, ◌+◌, length, Ok, OnOk, vec_items};
ghost use Rattle.std.specs.Result.{result_map_both};
ghost use Rattle.families.specs.Any.{any_shape};
ghost use Rattle.files.specs.File.{pack_answer, file_of};
ghost use Rattle.seals.specs.Law.{Promised};
ghost use Rattle.seals.specs.Part.{signed_part};
ghost use Rattle.seals.specs.Scheme.{scheme, inspection};
ghost use Rattle.seals.specs.Calls.{part_length};
ghost use Rattle.sheets.specs.Blocks.{blocks_of};
ghost use Rattle.desk.specs.Named.{scheme_by};
ghost use Rattle.desk.specs.Made.{part_made};
ghost use Rattle.desk.specs.Stopped.{Answers};

use crate::stop::Stop;
use answers::Refusal;
use blake2s::Blake2s;
use digests::Digest;
use families::any::AnyFamily;
use families::family::Family;
use files::pack;
use keys::{Drawn, Sealer, burn};
use seals::{FRAME_HEAD, seal};
use sha256::Sha256;
use sheets::Sheet;
use std::alloc::Global;
use told::Algorithm;

// The bytes of a seal part besides its rows' digests and its signature.
const LEAST: usize = 50;

const DIGEST: usize = 32;

// The bytes of a file besides its frames and its seal part.
const TRAILER: usize = 8;

// The seal part of a sheet under a drawn number, and what `seal` promises of it. The number is spent, also where the seal is refused.
#[tactic(auto, unfolding(crate::specs::Made::part_made))]
pub fn seal_part<S: Sealer>(
    alloc: Global,
    sheet: &Sheet,
    digest: Algorithm,
    family: &AnyFamily,
    key: &S,
    drawn: Drawn,
) -> Result<Vec<u8>, Stop>
    ensures answer { Answers vec_items result (part_made (scheme_by digest (any_shape family.now)) (S.kind key.now) (S.key key.now) (S.signature key.now) drawn.key drawn.number (blocks_of sheet.now)) }
    ensures law { OnOk result ((own : S.Own) → S.owns key.now own
        → Promised (scheme_by digest (any_shape family.now)) (inspection (S.Own.kind own) (S.Own.says own))
        (signed_part (scheme_by digest (any_shape family.now)) (S.kind key.now) (S.signature key.now drawn.number) drawn.number (blocks_of sheet.now)) (blocks_of sheet.now)) }
{
    let length = LEAST + DIGEST * usize::from(family.row_count()) + key.signature_len();
    let mut part = match vec![in alloc; 0; length] {
        Ok(part) => part,
        Err(error) => {
            let _ = burn(drawn);
            return Err(Stop::OutOfMemory(error));
        }
    };
    seal_into(sheet, digest, family, key, drawn, &mut part)?;
    Ok(part)
}

fn seal_into<S: Sealer>(
    sheet: &Sheet,
    digest: Algorithm,
    family: &AnyFamily,
    key: &S,
    drawn: Drawn,
    out: &mut [u8],
) -> Result<(), Refusal>
    requires { length out.old ≡ part_length (any_shape family.now).rows (S.key key.now).size }
    ensures answer { result_map_both (λ _. out.new) (λ e. e) result ≡ part_made (scheme_by digest (any_shape family.now)) (S.kind key.now) (S.key key.now) (S.signature key.now) drawn.key drawn.number (blocks_of sheet.now) }
    ensures law { OnOk result ((own : S.Own) → S.owns key.now own
        → Promised (scheme_by digest (any_shape family.now)) (inspection (S.Own.kind own) (S.Own.says own))
        (signed_part (scheme_by digest (any_shape family.now)) (S.kind key.now) (S.signature key.now drawn.number) drawn.number (blocks_of sheet.now)) (blocks_of sheet.now)) }
{
    match digest {
        Algorithm::Sha256 => seal_by::<Sha256, S>(sheet, family, key, drawn, out),
        Algorithm::Blake2s => seal_by::<Blake2s, S>(sheet, family, key, drawn, out),
    }
}

// Into a buffer that is as long as the seal part.
fn seal_by<D: Digest, S: Sealer>(
    sheet: &Sheet,
    family: &AnyFamily,
    key: &S,
    drawn: Drawn,
    out: &mut [u8],
) -> Result<(), Refusal>
    requires { length out.old ≡ part_length (any_shape family.now).rows (S.key key.now).size }
    ensures answer { result_map_both (λ _. out.new) (λ e. e) result ≡ part_made (scheme D.digest D.KIND (any_shape family.now)) (S.kind key.now) (S.key key.now) (S.signature key.now) drawn.key drawn.number (blocks_of sheet.now) }
    ensures law { OnOk result ((own : S.Own) → S.owns key.now own
        → Promised (scheme D.digest D.KIND (any_shape family.now)) (inspection (S.Own.kind own) (S.Own.says own))
        (signed_part (scheme D.digest D.KIND (any_shape family.now)) (S.kind key.now) (S.signature key.now drawn.number) drawn.number (blocks_of sheet.now)) (blocks_of sheet.now)) }
{
    match seal::<D, _, _>(sheet, family, key, drawn, out) {
        Ok(_) => Ok(()),
        Err((refusal, drawn)) => {
            let _ = burn(drawn);
            Err(refusal)
        }
    }
}

// The file of a sheet and a seal part. There is always room for it.
#[tactic(auto, using(crate::proofs::Filled::file_room))]
pub fn pack_file(alloc: Global, sheet: &Sheet, part: &[u8]) -> Result<Vec<u8>, Stop>
    ensures { Answers vec_items result (pack_answer (blocks_of sheet.now) part.now (length (file_of (blocks_of sheet.now) part.now))) }
{
    let frames = FRAME_HEAD * usize::from(sheet.block_count()) + sheet.total();
    let mut file = vec![in alloc; 0; frames + part.len() + TRAILER]?;
    pack_into(sheet, part, &mut file)?;
    Ok(file)
}

// Into a buffer that is as long as the file.
#[tactic(auto, using(crate::proofs::Filled::unpacked))]
fn pack_into(sheet: &Sheet, part: &[u8], out: &mut [u8]) -> Result<(), Refusal>
    requires { length out.old ≡ length (file_of (blocks_of sheet.now) part.now) }
    ensures { result_map_both (λ _. out.new) (λ e. e) result ≡ pack_answer (blocks_of sheet.now) part.now (length (file_of (blocks_of sheet.now) part.now)) }
{
    let _ = pack(sheet, part, out)?;
    Ok(())
}
