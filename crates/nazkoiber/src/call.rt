// The calls of a script. A line is taken apart as a whole before anything is called.
ghost use Rattle.std.specs.Prelude.{◌≡◌};
ghost use Rattle.std.specs.Option.{ok_or};
ghost use Rattle.std.specs.Result.{result_map_both};
ghost use Rattle.scripts.specs.declared.error.ParseError.TheVariants.{NotUnderstood};
ghost use Rattle.scripts.specs.Words.{alone};
ghost use Rattle.scripts.specs.Reading.{Reads};
ghost use Rattle.told.specs.Algorithms.{algorithm_of};
ghost use Rattle.told.specs.Names.{count_of};
ghost use Rattle.nazkoiber.specs.declared.call.Verb.TheVariants as verbs;
ghost use Rattle.nazkoiber.specs.Script.{told, verb_of, told_by, part_told, room_in, line_told};

use answers::{BlockNumber, RowNumber};
use keyfiles::KeyWords;
use scripts::{ParseError, Words, decode_hex, parse_number};
use std::alloc::Global;
use told::{Algorithm, FamilyName, parse_count};

// The largest room of a check, and that of the other calls.
const MAX_PLACES: u32 = 65_535;

const MAX_ROOM: u32 = 1_048_576;

// The rooms where a line names none: for every sheet that can be sealed, checked, excerpted and packed.
const SEAL_ROOM: usize = 65_535 + 32 * 513 + 50;

const CHECK_ROOM: usize = 512;

const EXCERPT_ROOM: usize = 2 * 65_535;

const FILE_ROOM: usize = 262_144;

// A script line that was taken apart.
#[derive(Drop)]
pub enum Call {
    Clear,
    Cut(Vec<u8>),
    Add(Vec<u8>),
    Rewrite(BlockNumber, Vec<u8>),
    Show(BlockNumber),
    Sheet,
    Digest(Algorithm),
    Family(FamilyName),
    // A count of blocks, and a strength.
    Choose(u16, u16),
    Rows(BlockNumber),
    Key(KeyWords),
    Draw,
    Burn,
    // Places in the buffer; of check, in the list.
    Seal(usize),
    Part,
    SetPart(Vec<u8>),
    Accept,
    Check(usize),
    Vouch(BlockNumber, Vec<u8>),
    Excerpt(BlockNumber, RowNumber, usize),
    // A block, a row, offered bytes and an excerpt.
    Confirm(BlockNumber, RowNumber, Vec<u8>, Vec<u8>),
    // Places in the buffer.
    Pack(usize),
    Unpack(Vec<u8>),
}

// The first word of a line, a type of its own: the definition of what a line says looks it up first.
#[derive(Clone, Copy)]
enum Verb {
    Clear,
    Cut,
    Add,
    Rewrite,
    Show,
    Sheet,
    Digest,
    Family,
    Choose,
    Rows,
    Key,
    Draw,
    Burn,
    Seal,
    Part,
    Accept,
    Check,
    Vouch,
    Excerpt,
    Confirm,
    Pack,
    Unpack,
}

impl Call {
    #[tactic(auto, unfolding(crate::specs::Script::line_told))]
    pub fn parse(alloc: Global, line: &[u8]) -> Result<Call, ParseError>
        ensures { Reads told (line_told line.now) result }
    {
        let mut words = Words::new(line);
        let word = words.next_word()?;
        let verb = Verb::named(word).ok_or(ParseError::NotUnderstood)?;
        verb.parse_rest(alloc, words)
    }
}

impl Verb {
    #[tactic(auto, using(scripts::proofs::TableLemmas::row_read))]
    fn named(word: &[u8]) -> Option<Verb>
        ensures { result ≡ verb_of word.now }
    {
        match word {
            b"check" => Some(Verb::Check),
            b"clear" => Some(Verb::Clear),
            b"cut" => Some(Verb::Cut),
            b"add" => Some(Verb::Add),
            b"rewrite" => Some(Verb::Rewrite),
            b"show" => Some(Verb::Show),
            b"sheet" => Some(Verb::Sheet),
            b"digest" => Some(Verb::Digest),
            b"family" => Some(Verb::Family),
            b"choose" => Some(Verb::Choose),
            b"rows" => Some(Verb::Rows),
            b"key" => Some(Verb::Key),
            b"draw" => Some(Verb::Draw),
            b"burn" => Some(Verb::Burn),
            b"seal" => Some(Verb::Seal),
            b"part" => Some(Verb::Part),
            b"accept" => Some(Verb::Accept),
            b"vouch" => Some(Verb::Vouch),
            b"excerpt" => Some(Verb::Excerpt),
            b"confirm" => Some(Verb::Confirm),
            b"pack" => Some(Verb::Pack),
            b"unpack" => Some(Verb::Unpack),
            _ => None,
        }
    }

    // Takes apart what stands behind the first word.
    fn parse_rest(self, alloc: Global, words: Words) -> Result<Call, ParseError>
        ensures { Reads told (told_by self words.entry) result }
    {
        match self {
            Verb::Clear => alone(words, Call::Clear),
            Verb::Cut => Ok(Call::Cut(decode_hex(alloc, words.last_word()?)?)),
            Verb::Add => Ok(Call::Add(decode_hex(alloc, words.last_word()?)?)),
            Verb::Rewrite => parse_rewrite(alloc, words),
            Verb::Show => Ok(Call::Show(block_number(words.last_word()?)?)),
            Verb::Sheet => alone(words, Call::Sheet),
            Verb::Digest => Ok(Call::Digest(algorithm(words.last_word()?)?)),
            Verb::Family => Ok(Call::Family(FamilyName::parse(words)?)),
            Verb::Choose => parse_choose(words),
            Verb::Rows => Ok(Call::Rows(block_number(words.last_word()?)?)),
            Verb::Key => Ok(Call::Key(KeyWords::parse(alloc, words)?)),
            Verb::Draw => alone(words, Call::Draw),
            Verb::Burn => alone(words, Call::Burn),
            Verb::Seal => Ok(Call::Seal(parse_room(words, SEAL_ROOM, MAX_ROOM)?)),
            Verb::Part => parse_part(alloc, words),
            Verb::Accept => alone(words, Call::Accept),
            Verb::Check => Ok(Call::Check(parse_room(words, CHECK_ROOM, MAX_PLACES)?)),
            Verb::Vouch => parse_vouch(alloc, words),
            Verb::Excerpt => parse_excerpt(words),
            Verb::Confirm => parse_confirm(alloc, words),
            Verb::Pack => Ok(Call::Pack(parse_room(words, FILE_ROOM, MAX_ROOM)?)),
            Verb::Unpack => Ok(Call::Unpack(decode_hex(alloc, words.last_word()?)?)),
        }
    }
}

// A call that stands alone on its line.
fn alone(words: Words, call: Call) -> Result<Call, ParseError>
    ensures { result_map_both told (λ e. e) result ≡ ok_or (alone (told call) words.entry) NotUnderstood }
{
    words.end()?;
    Ok(call)
}

fn parse_rewrite(alloc: Global, mut words: Words) -> Result<Call, ParseError>
    ensures { Reads told (told_by verbs.Rewrite words.entry) result }
{
    let block = block_number(words.next_word()?)?;
    Ok(Call::Rewrite(block, decode_hex(alloc, words.last_word()?)?))
}

fn parse_choose(mut words: Words) -> Result<Call, ParseError>
    ensures { result_map_both told (λ e. e) result ≡ ok_or (told_by verbs.Choose words.entry) NotUnderstood }
{
    let n = parse_count(words.next_word()?)?;
    Ok(Call::Choose(n, parse_count(words.last_word()?)?))
}

fn parse_part(alloc: Global, words: Words) -> Result<Call, ParseError>
    ensures { Reads told (part_told words.entry) result }
{
    match words.rest() {
        None => Ok(Call::Part),
        Some(word) => Ok(Call::SetPart(decode_hex(alloc, word)?)),
    }
}

fn parse_vouch(alloc: Global, mut words: Words) -> Result<Call, ParseError>
    ensures { Reads told (told_by verbs.Vouch words.entry) result }
{
    let block = block_number(words.next_word()?)?;
    Ok(Call::Vouch(block, decode_hex(alloc, words.last_word()?)?))
}

fn parse_excerpt(mut words: Words) -> Result<Call, ParseError>
    ensures { result_map_both told (λ e. e) result ≡ ok_or (told_by verbs.Excerpt words.entry) NotUnderstood }
{
    let block = block_number(words.next_word()?)?;
    let row = row_number(words.next_word()?)?;
    Ok(Call::Excerpt(block, row, parse_room(words, EXCERPT_ROOM, MAX_ROOM)?))
}

fn parse_confirm(alloc: Global, mut words: Words) -> Result<Call, ParseError>
    ensures { Reads told (told_by verbs.Confirm words.entry) result }
{
    let block = block_number(words.next_word()?)?;
    let row = row_number(words.next_word()?)?;
    let offered = decode_hex(alloc, words.next_word()?)?;
    let excerpt = decode_hex(alloc, words.last_word()?)?;
    Ok(Call::Confirm(block, row, offered, excerpt))
}

fn block_number(word: &[u8]) -> Result<BlockNumber, ParseError>
    ensures { result_map_both (λ b. b.0) (λ e. e) result ≡ ok_or (count_of word.now) NotUnderstood }
{
    Ok(BlockNumber(parse_count(word)?))
}

fn row_number(word: &[u8]) -> Result<RowNumber, ParseError>
    ensures { result_map_both (λ r. r.0) (λ e. e) result ≡ ok_or (count_of word.now) NotUnderstood }
{
    Ok(RowNumber(parse_count(word)?))
}

fn algorithm(word: &[u8]) -> Result<Algorithm, ParseError>
    ensures { result ≡ ok_or (algorithm_of word.now) NotUnderstood }
{
    Algorithm::named(word).ok_or(ParseError::NotUnderstood)
}

// The room that a last word names, or the usual one.
fn parse_room(words: Words, usual: usize, most: u32) -> Result<usize, ParseError>
    ensures { result ≡ ok_or (room_in usual most words.entry) NotUnderstood }
{
    match words.rest() {
        None => Ok(usual),
        Some(word) => {
            let room = parse_number(word, most).ok_or(ParseError::NotUnderstood)?;
            Ok(room as usize)
        }
    }
}
