// What lines ask of families.
ghost use Rattle.std.specs.Prelude.{◌≡◌, IfOk, string_bytes};
ghost use Rattle.std.specs.Result.{result_map_both};
ghost use Rattle.families.specs.Any.{any_shape};
ghost use Rattle.scripts.specs.Reading.{Reads};
ghost use Rattle.told.specs.Texts.{family_text, rows_text, text_of};
ghost use Rattle.vectors.specs.Families.{family_answer, rows_answer, rows_named, chosen_text, choice_answer};

use answers::{BlockNumber, Refusal};
use families::any::AnyFamily;
use families::choose::choose;
use scripts::{ParseError, Words};
use std::alloc::{AllocError, Global};
use told::{FamilyName, family_text, parse_count, rows_text};

// The numbers of the family that words name.
pub fn answer_family(alloc: Global, words: Words) -> Result<String, ParseError>
    ensures { Reads string_bytes (family_answer words.entry) result }
{
    let name = FamilyName::parse(words)?;
    Ok(print_family(alloc, name.make())?)
}

// The rows of a block, in the family that the words behind its number name.
pub fn answer_rows(alloc: Global, mut words: Words) -> Result<String, ParseError>
    ensures { Reads string_bytes (rows_answer words.entry) result }
{
    let block = BlockNumber(parse_count(words.next_word()?)?);
    rows_in_family(alloc, words, block)
}

fn rows_in_family(alloc: Global, words: Words, block: BlockNumber) -> Result<String, ParseError>
    ensures { Reads string_bytes (rows_named block.0 words.entry) result }
{
    let name = FamilyName::parse(words)?;
    Ok(print_rows(alloc, name.make(), block)?)
}

// The numbers of the family that is chosen for a count of blocks and a strength.
pub fn answer_choice(alloc: Global, mut words: Words) -> Result<String, ParseError>
    ensures { Reads string_bytes (choice_answer words.entry) result }
{
    let n = parse_count(words.next_word()?)?;
    let d = parse_count(words.last_word()?)?;
    Ok(print_chosen(alloc, n, d)?)
}

// Apart from the reading of the words, whose proof takes the text as one.
#[tactic(auto, unfolding(crate::specs::Families::chosen_text))]
fn print_chosen(alloc: Global, n: u16, d: u16) -> Result<String, AllocError>
    ensures { IfOk result (λ s. string_bytes s ≡ chosen_text n d) }
{
    print_family(alloc, choose(n, d))
}

fn print_family(alloc: Global, made: Result<AnyFamily, Refusal>) -> Result<String, AllocError>
    ensures { IfOk result (λ s. string_bytes s ≡ text_of family_text (result_map_both any_shape (λ e. e) made)) }
{
    match made {
        Ok(family) => family_text(alloc, &family),
        Err(refusal) => format!(in alloc; "{refusal}"),
    }
}

fn print_rows(
    alloc: Global,
    made: Result<AnyFamily, Refusal>,
    block: BlockNumber,
) -> Result<String, AllocError>
    ensures { IfOk result (λ s. string_bytes s ≡ text_of (λ f. rows_text f block.0) (result_map_both any_shape (λ e. e) made)) }
{
    match made {
        Ok(family) => rows_text(alloc, &family, block),
        Err(refusal) => format!(in alloc; "{refusal}"),
    }
}
