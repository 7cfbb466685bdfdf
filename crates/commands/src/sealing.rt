// Sealing a sheet under a number of a key's file.
ghost use Rattle.std.specs.Prelude.{◌≡◌};
ghost use Rattle.commands.specs.Problems.{is_busy, lock_problem};

use crate::keeping::MAX_KEY;
use crate::office::{MAX_TEXT, read, write_new};
use crate::problem::{Problem, key_problem};
use crate::words::Words;
use desk::{pack_file, seal_part};
use families::choose::choose;
use families::family::Family;
use keyfiles::{AnyKey, KeyFile};
use keys::{Drawn, burn};
use sheets::Sheet;
use std::io;
use store::Locked;

// How many changed blocks a check names, where no option says so.
const CHANGES: u16 = 2;

pub(crate) fn seal<'a>(rt: &HostRuntime, words: &Words<'a>) -> Result<(), Problem<'a>> {
    words.expect(3, &["--changes", "--digest"])?;
    let (key_path, text_path, out) = (words.at(0), words.at(1), words.at(2));
    let digest = words.digest()?;
    let changes = match words.option("--changes") {
        None => CHANGES,
        Some(word) => words.number(word)?,
    };
    store::expect_room(rt, out).map_err(|error| Problem::File(out, error))?;
    let alloc = rt.alloc();
    let mut sheet = Sheet::new(alloc)?;
    let count = sheet.cut(&read(rt, text_path, MAX_TEXT)?)?;
    let family = choose(count, changes)?;
    // All that can be refused is, before a number is gone.
    let (key, drawn) = draw_from(rt, key_path)?;
    let number = drawn.number();
    let part = seal_part(alloc, &sheet, digest, &family, &key, drawn)?;
    write_new(rt, out, &pack_file(alloc, &sheet, &part)?)?;
    let strength = family.strength();
    println!(rt;
        "sealed {count} blocks under number {number}: a check names up to {strength} changed blocks"
    ).map_err(|error| Problem::Output(error))
}

// Draws a number of a key's file. The file says that the number is gone before anything is signed under it, and no other program draws meanwhile.
fn draw_from<'a>(rt: &HostRuntime, path: &'a str) -> Result<(AnyKey, Drawn), Problem<'a>> {
    let locked = store::lock(rt, path).map_err(|error| lock_problem(path, error))?;
    let bytes = locked
        .read_up_to(rt, MAX_KEY)
        .map_err(|error| Problem::File(path, error))?;
    let mut file = KeyFile::read(rt.alloc(), &bytes).map_err(|error| key_problem(path, error))?;
    let (key, drawn) = file.draw()?.ok_or(Problem::CannotSeal(path))?;
    match put_back(rt, path, &locked, &file) {
        Ok(()) => Ok((key, drawn)),
        Err(problem) => {
            let _ = burn(drawn);
            Err(problem)
        }
    }
}

fn put_back<'a>(
    rt: &HostRuntime,
    path: &'a str,
    locked: &Locked,
    file: &KeyFile,
) -> Result<(), Problem<'a>> {
    let text = file.text(rt.alloc())?;
    locked
        .replace(rt, text.as_bytes())
        .map_err(|error| Problem::File(path, error))
}

fn lock_problem(path: &str, error: io::Error) -> Problem<'_>
    ensures { result ≡ lock_problem path.entry error }
{
    if is_busy(error.kind()) {
        Problem::InUse(path)
    } else {
        Problem::File(path, error)
    }
}

#[tactic(auto, using(crate::proofs::ErrorKinds::not_busy), unfolding(crate::specs::Problems::is_busy))]
fn is_busy(kind: io::ErrorKind) -> bool
    ensures { result ≡ is_busy kind }
{
    matches!(kind, io::ErrorKind::ResourceBusy)
}
