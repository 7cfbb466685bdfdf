// A seal part that an inspector accepts, alone or in a file, with the digest and the family that it names, and the calls on it.
ghost use Rattle.std.specs.Prelude.{◌≡◌, ◌+◌, ◌≤◌, length, take, drop, Ok, Err};
ghost use Rattle.std.specs.Result.{result_map_both};
ghost use Rattle.families.specs.Any.{any_shape};
ghost use Rattle.sheets.specs.Blocks.{blocks_of};
ghost use Rattle.seals.specs.Scheme.{inspection};
ghost use Rattle.seals.specs.Calls.{check_answer, vouch_answer, excerpt_answer, confirm_answer, lent_after};
ghost use Rattle.desk.specs.Named.{scheme_by};
ghost use Rattle.desk.specs.Opened.{part_answer, file_answer};
ghost use Rattle.desk.specs.Stopped.{Answers};

use crate::by_digest::{check_by, confirm_by, vouch_by};
use crate::scheme::scheme_of;
use crate::stop::Stop;
use answers::{BlockNumber, Refusal, RowNumber};
use families::any::AnyFamily;
use files::unpack;
use keys::Inspector;
use seals::{Accepted, accept};
use sheets::Sheet;
use std::alloc::Global;
use told::Algorithm;

#[derive(Drop)]
pub struct OpenPart<'a> {
    pub seal: Accepted<'a>,
    pub digest: Algorithm,
    pub family: AnyFamily,
}

#[derive(Drop)]
pub struct OpenFile<'a> {
    pub part: OpenPart<'a>,
    pub sheet: Sheet,
}

#[tactic(auto, unfolding(crate::specs::Opened::part_answer))]
pub fn open_part<'a, I: Inspector>(inspector: &I, part: &'a [u8]) -> Result<OpenPart<'a>, Refusal>
    ensures { result_map_both (λ o. (scheme_by o.digest (any_shape o.family), o.seal.part.now)) (λ e. e) result ≡ part_answer (inspection (I.kind inspector.now) (I.says inspector.now)) part.entry.now }
{
    let seal = accept(part, inspector)?;
    let (digest, family) = scheme_of(part)?;
    Ok(OpenPart {
        seal,
        digest,
        family,
    })
}

#[tactic(auto, using(files::proofs::SealPlace::part_fits, files::proofs::SealPlace::part_there), unfolding(crate::specs::Opened::file_answer))]
pub fn open_file<'a, I: Inspector>(
    alloc: Global,
    inspector: &I,
    file: &'a [u8],
) -> Result<OpenFile<'a>, Stop>
    ensures { Answers (λ o. ((scheme_by o.part.digest (any_shape o.part.family), o.part.seal.part.now), blocks_of o.sheet)) result (file_answer (inspection (I.kind inspector.now) (I.says inspector.now)) file.entry.now) }
{
    let mut sheet = Sheet::new(alloc)?;
    let (place, length) = unpack(&mut sheet, file)?;
    let part = open_part(inspector, &file[place..place + length])?;
    Ok(OpenFile { part, sheet })
}

// The calls of the seal, by that digest and that family.
impl OpenFile<'_> {
    pub fn check(&self, list: &mut [u16]) -> Result<usize, Refusal>
        ensures answer { result ≡ result_map_both length (λ e. e) (check_answer (scheme_by self.now.part.digest (any_shape self.now.part.family)) self.now.part.seal.part.now (blocks_of self.now.sheet) (length list.old)) }
        ensures list { list.new ≡ lent_after (check_answer (scheme_by self.now.part.digest (any_shape self.now.part.family)) self.now.part.seal.part.now (blocks_of self.now.sheet) (length list.old)) list.old }
    {
        let OpenFile { part, sheet } = self;
        check_by(part.digest, &part.seal, sheet, &part.family, list)
    }

    pub fn vouch(&self, block: BlockNumber, offered: &[u8]) -> Result<(RowNumber, usize), Refusal>
        ensures { result_map_both (λ r. (r.0.0, r.1)) (λ e. e) result ≡ vouch_answer (scheme_by self.now.part.digest (any_shape self.now.part.family)) self.now.part.seal.part.now (blocks_of self.now.sheet) block.0 offered.now }
    {
        let OpenFile { part, sheet } = self;
        vouch_by(part.digest, &part.seal, sheet, &part.family, block, offered)
    }

    pub fn excerpt(
        &self,
        block: BlockNumber,
        row: RowNumber,
        out: &mut [u8],
    ) -> Result<usize, Refusal>
        ensures answer { result ≡ result_map_both length (λ e. e) (excerpt_answer (any_shape self.now.part.family) self.now.part.seal.part.now (blocks_of self.now.sheet) block.0 row.0 (length out.old)) }
        ensures buffer { out.new ≡ lent_after (excerpt_answer (any_shape self.now.part.family) self.now.part.seal.part.now (blocks_of self.now.sheet) block.0 row.0 (length out.old)) out.old }
    {
        let OpenPart { seal, family, .. } = &self.part;
        seal.excerpt(&self.sheet, family, block, row, out)
    }
}

impl OpenPart<'_> {
    pub fn confirm(
        &self,
        block: BlockNumber,
        row: RowNumber,
        offered: &[u8],
        excerpt: &[u8],
    ) -> Result<(), Refusal>
        ensures { result ≡ confirm_answer (scheme_by self.now.digest (any_shape self.now.family)) self.now.seal.part.now block.0 row.0 offered.now excerpt.now }
    {
        let OpenPart {
            seal,
            digest,
            family,
        } = self;
        confirm_by(*digest, seal, family, block, row, offered, excerpt)
    }
}
