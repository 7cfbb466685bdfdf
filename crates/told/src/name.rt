// The words that name a family: its kind, and the numbers that one of that kind is made of.
ghost use Rattle.std.specs.Prelude.{◌≡◌};
ghost use Rattle.std.specs.Result.{result_map_both};
ghost use Rattle.families.specs.Any.{any_shape};
ghost use Rattle.std.specs.Option.{ok_or};
ghost use Rattle.scripts.specs.declared.error.ParseError.TheVariants.{NotUnderstood};
ghost use Rattle.told.specs.Names.{kind_of, name_by, family_named, name_answer};

use crate::number::{parse_count, parse_small};
use answers::Refusal;
use families::any::AnyFamily;
use scripts::{ParseError, Words};

// A family by its name. All words are read before it is made, so that a bad word shows even where the family is refused.
#[derive(Clone, Copy)]
pub enum FamilyName {
    Single(u16),
    Halves(u16),
    // q, k and the count of blocks
    Polynomial(u8, u8, u16),
    Plane(u16),
}

// The first word of a name. Apart from the name, since the definition of what words name goes by it.
#[derive(Clone, Copy)]
enum Kind {
    Single,
    Halves,
    Polynomial,
    Plane,
}

impl FamilyName {
    // The family that all the words left name.
    pub fn parse(mut words: Words) -> Result<FamilyName, ParseError>
        ensures { result ≡ ok_or (family_named words.entry) NotUnderstood }
    {
        let word = words.next_word()?;
        let kind = Kind::named(word).ok_or(ParseError::NotUnderstood)?;
        kind.parse_numbers(words)
    }

    pub fn make(self) -> Result<AnyFamily, Refusal>
        ensures { result_map_both any_shape (λ e. e) result ≡ name_answer self }
    {
        match self {
            FamilyName::Single(n) => AnyFamily::single(n),
            FamilyName::Halves(n) => AnyFamily::halves(n),
            FamilyName::Polynomial(q, k, n) => AnyFamily::polynomial(q, k, n),
            FamilyName::Plane(n) => AnyFamily::plane(n),
        }
    }
}

impl Kind {
    #[tactic(auto, using(scripts::proofs::TableLemmas::row_read))]
    fn named(word: &[u8]) -> Option<Kind>
        ensures { result ≡ kind_of word.now }
    {
        match word {
            b"single" => Some(Kind::Single),
            b"halves" => Some(Kind::Halves),
            b"polynomial" => Some(Kind::Polynomial),
            b"plane" => Some(Kind::Plane),
            _ => None,
        }
    }

    // Reads the numbers behind the kind.
    fn parse_numbers(self, mut words: Words) -> Result<FamilyName, ParseError>
        ensures { result ≡ ok_or (name_by self words.entry) NotUnderstood }
    {
        match self {
            Kind::Single => Ok(FamilyName::Single(parse_count(words.last_word()?)?)),
            Kind::Halves => Ok(FamilyName::Halves(parse_count(words.last_word()?)?)),
            Kind::Polynomial => {
                let q = parse_small(words.next_word()?)?;
                let k = parse_small(words.next_word()?)?;
                let n = parse_count(words.last_word()?)?;
                Ok(FamilyName::Polynomial(q, k, n))
            }
            Kind::Plane => Ok(FamilyName::Plane(parse_count(words.last_word()?)?)),
        }
    }
}
