// The calls on a file or a seal part, by the digest and the family that the seal part names.
ghost use Rattle.std.specs.Prelude.{◌≡◌, length};
ghost use Rattle.std.specs.Result.{result_map_both};
ghost use Rattle.desk.specs.Stopped.{Answers};
ghost use Rattle.embedding.specs.Calls.{check_file, named_blocks, vouch_file, excerpt_file, confirm_part};
ghost use Rattle.embedding.specs.Status.{Leaves};

use crate::key::Key;
use answers::{BlockNumber, Refusal, RowNumber};
use desk::{Stop, open_file, open_part};
use std::alloc::Global;

// Names the changed blocks of a file. Answers their count, and the seal's number.
#[tactic(auto, unfolding(crate::specs::Calls::check_file))]
pub(crate) fn check(
    alloc: Global,
    file: &[u8],
    digest: u8,
    secret: &[u8],
    list: &mut [u16],
) -> Result<(usize, u32), Stop>
    ensures answer { Answers (λ r. r) result (result_map_both (λ r. (length r.0, r.1)) (λ e. e) (check_file file.now digest secret.now (length list.old))) }
    ensures list { Leaves result (named_blocks (check_file file.now digest secret.now (length list.old))) list.old list.new }
{
    let key = Key::new(digest, secret)?;
    let opened = open_file(alloc, &key.inspector(), file)?;
    let count = opened.check(list)?;
    Ok((count, opened.part.seal.number()))
}

// Looks for a row by which bytes offered for a block can be told. Answers it, and the length of its excerpt.
#[tactic(auto, unfolding(crate::specs::Calls::vouch_file))]
pub(crate) fn vouch(
    alloc: Global,
    file: &[u8],
    digest: u8,
    secret: &[u8],
    block: BlockNumber,
    offered: &[u8],
) -> Result<(RowNumber, usize), Stop>
    ensures { Answers (λ r. (r.0.0, r.1)) result (vouch_file file.now digest secret.now block.0 offered.now) }
{
    let key = Key::new(digest, secret)?;
    let opened = open_file(alloc, &key.inspector(), file)?;
    Ok(opened.vouch(block, offered)?)
}

// Writes the excerpt of a block and a row, and answers its length.
#[tactic(auto, unfolding(crate::specs::Calls::excerpt_file))]
pub(crate) fn excerpt(
    alloc: Global,
    file: &[u8],
    digest: u8,
    secret: &[u8],
    block: BlockNumber,
    row: RowNumber,
    out: &mut [u8],
) -> Result<usize, Stop>
    ensures answer { Answers (λ n. n) result (result_map_both length (λ e. e) (excerpt_file file.now digest secret.now block.0 row.0 (length out.old))) }
    ensures buffer { Leaves result (excerpt_file file.now digest secret.now block.0 row.0 (length out.old)) out.old out.new }
{
    let key = Key::new(digest, secret)?;
    let opened = open_file(alloc, &key.inspector(), file)?;
    Ok(opened.excerpt(block, row, out)?)
}

// Tells by a seal part and an excerpt alone whether offered bytes are the sealed ones.
#[tactic(auto, unfolding(crate::specs::Calls::confirm_part))]
pub(crate) fn confirm(
    part: &[u8],
    digest: u8,
    secret: &[u8],
    block: BlockNumber,
    row: RowNumber,
    offered: &[u8],
    excerpt: &[u8],
) -> Result<(), Refusal>
    ensures { result ≡ confirm_part part.now digest secret.now block.0 row.0 offered.now excerpt.now }
{
    let key = Key::new(digest, secret)?;
    open_part(&key.inspector(), part)?.confirm(block, row, offered, excerpt)
}
