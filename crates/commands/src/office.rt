// The commands on sheets, sealed files, seal parts and excerpts.
use crate::contents::{excerpt_of, findings_of, lines_of, part_of, rewritten, sealed_text_of};
use crate::keeping::read_key;
use crate::problem::Problem;
use crate::words::Words;
use desk::{open_file, open_part};
use store::Access;

// The bytes of the longest sheet, and of the longest sealed file.
pub(crate) const MAX_TEXT: u32 = 38_912;

const MAX_FILE: u32 = 122_937;

// No excerpt of a sheet has as many bytes.
const EXCERPT_ROOM: usize = 40_960;

// All bytes of a file, or one more than the call that reads them takes.
pub(crate) fn read<'a>(rt: &HostRuntime, path: &'a str, most: u32) -> Result<Vec<u8>, Problem<'a>> {
    store::read_up_to(rt, path, most).map_err(|error| Problem::File(path, error))
}

pub(crate) fn write_new<'a>(
    rt: &HostRuntime,
    path: &'a str,
    bytes: &[u8],
) -> Result<(), Problem<'a>> {
    store::create(rt, path, bytes, Access::All).map_err(|error| Problem::File(path, error))
}

fn print<'a>(rt: &HostRuntime, text: &str) -> Result<(), Problem<'a>> {
    rt.print(text).map_err(|error| Problem::Output(error))
}

pub(crate) fn check<'a>(rt: &HostRuntime, words: &Words<'a>) -> Result<(), Problem<'a>> {
    words.expect(2, &[])?;
    let (key, path) = (words.at(0), words.at(1));
    let inspector = read_key(rt, key)?.inspector();
    let file = read(rt, path, MAX_FILE)?;
    let opened = open_file(rt.alloc(), &inspector, &file)?;
    let mut list = [0; 512];
    let text = findings_of(rt.alloc(), &opened, &mut list)?;
    print(rt, &text)
}

pub(crate) fn rewrite<'a>(rt: &HostRuntime, words: &Words<'a>) -> Result<(), Problem<'a>> {
    words.expect(4, &[])?;
    let (path, block, text, out) = (words.at(0), words.at(1), words.at(2), words.at(3));
    let block = words.block(block)?;
    let file = read(rt, path, MAX_FILE)?;
    let bytes = read(rt, text, MAX_TEXT)?;
    write_new(rt, out, &rewritten(rt.alloc(), &file, block, &bytes)?)
}

pub(crate) fn vouch<'a>(rt: &HostRuntime, words: &Words<'a>) -> Result<(), Problem<'a>> {
    words.expect(4, &[])?;
    let (key, path, block, text) = (words.at(0), words.at(1), words.at(2), words.at(3));
    let block = words.block(block)?;
    let inspector = read_key(rt, key)?.inspector();
    let file = read(rt, path, MAX_FILE)?;
    let bytes = read(rt, text, MAX_TEXT)?;
    let opened = open_file(rt.alloc(), &inspector, &file)?;
    let (row, length) = opened.vouch(block, &bytes)?;
    let (block, row) = (block.0, row.0);
    println!(rt;
        "block {block}: these are the sealed bytes, by row {row}, whose excerpt has {length} bytes"
    ).map_err(|error| Problem::Output(error))
}

pub(crate) fn excerpt<'a>(rt: &HostRuntime, words: &Words<'a>) -> Result<(), Problem<'a>> {
    words.expect(5, &[])?;
    let (key, path, block, row, out) = (
        words.at(0),
        words.at(1),
        words.at(2),
        words.at(3),
        words.at(4),
    );
    let (block, row) = (words.block(block)?, words.row(row)?);
    let inspector = read_key(rt, key)?.inspector();
    let file = read(rt, path, MAX_FILE)?;
    let opened = open_file(rt.alloc(), &inspector, &file)?;
    let excerpt = excerpt_of(rt.alloc(), &opened, block, row, EXCERPT_ROOM)?;
    write_new(rt, out, &excerpt)
}

pub(crate) fn confirm<'a>(rt: &HostRuntime, words: &Words<'a>) -> Result<(), Problem<'a>> {
    words.expect(6, &[])?;
    let (key, path, block, row, text, excerpt) = (
        words.at(0),
        words.at(1),
        words.at(2),
        words.at(3),
        words.at(4),
        words.at(5),
    );
    let (block, row) = (words.block(block)?, words.row(row)?);
    let inspector = read_key(rt, key)?.inspector();
    let part = read(rt, path, MAX_FILE)?;
    let bytes = read(rt, text, MAX_TEXT)?;
    let excerpt = read(rt, excerpt, MAX_FILE)?;
    open_part(&inspector, &part)?.confirm(block, row, &bytes, &excerpt)?;
    let block = block.0;
    println!(rt; "block {block}: these are the sealed bytes").map_err(|error| Problem::Output(
        error,
    ))
}

pub(crate) fn part<'a>(rt: &HostRuntime, words: &Words<'a>) -> Result<(), Problem<'a>> {
    words.expect(2, &[])?;
    let (path, out) = (words.at(0), words.at(1));
    let file = read(rt, path, MAX_FILE)?;
    write_new(rt, out, part_of(rt.alloc(), &file)?)
}

pub(crate) fn show<'a>(rt: &HostRuntime, words: &Words<'a>) -> Result<(), Problem<'a>> {
    words.expect(1, &[])?;
    let path = words.at(0);
    let file = read(rt, path, MAX_FILE)?;
    print(rt, &sealed_text_of(rt.alloc(), &file)?)
}

pub(crate) fn lines<'a>(rt: &HostRuntime, words: &Words<'a>) -> Result<(), Problem<'a>> {
    words.expect(1, &[])?;
    let path = words.at(0);
    let text = read(rt, path, MAX_TEXT)?;
    print(rt, &lines_of(rt.alloc(), &text)?)
}
