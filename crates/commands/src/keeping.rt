// Keys and their files.
use crate::misuse::Misuse;
use crate::problem::{Problem, key_problem};
use crate::words::Words;
use keyfiles::{KeyFile, KeyWords, LmsWords, TagWords};
use scripts::decode_array;
use std::io;
use std::random::RandomSource;
use store::Access;

// Longer key files are not read.
pub(crate) const MAX_KEY: u32 = 1_024;

pub(crate) fn new_key<'a>(rt: &HostRuntime, words: &Words<'a>) -> Result<(), Problem<'a>> {
    words.expect(2, &["--name", "--digest"])?;
    let key = match words.at(0).as_bytes() {
        b"tag" => new_tag(rt, words)?,
        b"lms" => new_lms(rt, words)?,
        _ => return Err(words.wrong(Misuse::NoSuchKind)),
    };
    write_key(rt, words.at(1), &KeyFile::Key(key), Access::Owner)
}

pub(crate) fn public_part<'a>(rt: &HostRuntime, words: &Words<'a>) -> Result<(), Problem<'a>> {
    words.expect(2, &[])?;
    let (path, out) = (words.at(0), words.at(1));
    let public = read_key(rt, path)?
        .public()
        .ok_or(Problem::NoPublicPart(path))?;
    write_key(rt, out, &public, Access::All)
}

pub(crate) fn show_key<'a>(rt: &HostRuntime, words: &Words<'a>) -> Result<(), Problem<'a>> {
    words.expect(1, &[])?;
    let text = read_key(rt, words.at(0))?.described(rt.alloc())?;
    rt.print(&text).map_err(|error| Problem::Output(error))
}

pub(crate) fn read_key<'a>(rt: &HostRuntime, path: &'a str) -> Result<KeyFile, Problem<'a>> {
    let bytes = store::read_up_to(rt, path, MAX_KEY).map_err(|error| Problem::File(path, error))?;
    KeyFile::read(rt.alloc(), &bytes).map_err(|error| key_problem(path, error))
}

fn write_key<'a>(
    rt: &HostRuntime,
    path: &'a str,
    key: &KeyFile,
    access: Access,
) -> Result<(), Problem<'a>> {
    let text = key.text(rt.alloc())?;
    store::create(rt, path, text.as_bytes(), access).map_err(|error| Problem::File(path, error))?;
    let told = key.described(rt.alloc())?;
    rt.print(&told).map_err(|error| Problem::Output(error))
}

// Bytes from the system's random source.
fn random<'a, const N: usize>(rt: &HostRuntime) -> Result<[u8; N], Problem<'a>> {
    let mut bytes = [0; N];
    rt.fill_bytes(&mut bytes)
        .map_err(|error| Problem::File("the system's random source", error))?;
    Ok(bytes)
}

// The name that an option gives, or a random one.
fn name<'a>(rt: &HostRuntime, words: &Words<'a>) -> Result<[u8; 8], Problem<'a>> {
    let Some(word) = words.option("--name") else {
        return random(rt);
    };
    match decode_array::<8>(rt.alloc(), word.as_bytes()) {
        Ok(name) => Ok(name),
        Err(_) => Err(words.wrong(Misuse::NotAName)),
    }
}

fn new_tag<'a>(rt: &HostRuntime, words: &Words<'a>) -> Result<KeyWords, Problem<'a>> {
    Ok(KeyWords::Tag(TagWords {
        digest: words.digest()?,
        secret: random(rt)?,
        name: name(rt, words)?,
        next: 0,
    }))
}

// The name of an LMS key is the first half of its identifier.
fn new_lms<'a>(rt: &HostRuntime, words: &Words<'a>) -> Result<KeyWords, Problem<'a>> {
    if words.option("--digest").is_some() {
        return Err(words.wrong(Misuse::NoChoiceOfDigest));
    }
    let mut id = random::<16>(rt)?;
    id[..8].copy_from_slice(&name(rt, words)?);
    let seed = random(rt)?;
    Ok(KeyWords::Lms(LmsWords { id, seed, next: 0 }))
}
