// Files of a text's blocks, sealed here or before.
ghost use Rattle.std.specs.Prelude.{◌≡◌, [], length};
ghost use Rattle.std.specs.Result.{result_map_both};
ghost use Rattle.desk.specs.Stopped.{Answers};
ghost use Rattle.files.specs.File.{unpack_answer};
ghost use Rattle.embedding.specs.Calls.{pack_text, seal_text};
ghost use Rattle.embedding.specs.Status.{Leaves};

use crate::key::key_words;
use desk::{Stop, seal_part};
use families::choose::choose;
use sheets::Sheet;
use std::alloc::Global;

// Where the seal part stands in a file, and its length.
pub(crate) fn unpack(alloc: Global, file: &[u8]) -> Result<(usize, usize), Stop>
    ensures { Answers (λ r. r) result (unpack_answer [] file.now) }
{
    let mut sheet = Sheet::new(alloc)?;
    Ok(files::unpack(&mut sheet, file)?)
}

// Writes the file of the blocks that a text is cut into and a seal part, and answers its length.
#[tactic(auto, unfolding(crate::specs::Calls::pack_text))]
pub(crate) fn pack(alloc: Global, text: &[u8], part: &[u8], out: &mut [u8]) -> Result<usize, Stop>
    ensures answer { Answers (λ n. n) result (result_map_both length (λ e. e) (pack_text text.now part.now (length out.old))) }
    ensures buffer { Leaves result (pack_text text.now part.now (length out.old)) out.old out.new }
{
    let mut sheet = Sheet::new(alloc)?;
    sheet.cut(text)?;
    Ok(files::pack(&sheet, part, out)?)
}

// Cuts a text, seals it by the family chosen for so many changes, and writes the file. Answers its length.
#[tactic(auto, unfolding(crate::specs::Calls::seal_text))]
pub(crate) fn seal_text(
    alloc: Global,
    text: &[u8],
    digest: u8,
    changes: u16,
    secret: &[u8],
    name: &[u8],
    number: u32,
    out: &mut [u8],
) -> Result<usize, Stop>
    ensures answer { Answers (λ n. n) result (result_map_both length (λ e. e) (seal_text text.now digest changes secret.now name.now number (length out.old))) }
    ensures buffer { Leaves result (seal_text text.now digest changes secret.now name.now number (length out.old)) out.old out.new }
{
    let (digest, mut words) = key_words(digest, secret, name, number)?;
    let mut sheet = Sheet::new(alloc)?;
    let count = sheet.cut(text)?;
    let family = choose(count, changes)?;
    let (key, drawn) = words.draw()?;
    let part = seal_part(alloc, &sheet, digest, &family, &key, drawn)?;
    Ok(files::pack(&sheet, &part, out)?)
}
