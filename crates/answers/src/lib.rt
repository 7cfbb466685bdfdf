// What every call answers where it does not succeed, and the numbers of blocks and rows.
#![tactic(auto)]

ghost use Rattle.std.specs.Prelude.{◌≡◌, ◌+◌, Some, MatchOption};
ghost use Rattle.answers.specs.Refusals.{number_of, reason_of, shown_as};

use std::error::Error;
use std::fmt;

// A block of a sheet, counted from 1.
#[derive(Clone, Copy, PartialEq, Eq, PartialOrd, Ord, Debug)]
pub struct BlockNumber(pub u16);

impl BlockNumber {
    // Where the block stands in a list of all blocks. 0 is the number of none.
    pub fn index(self) -> Option<usize>
        ensures { MatchOption result (self.0 ≡ 0) (λ i. i + 1 ≡ self.0) }
    {
        usize::from(self.0).checked_sub(1)
    }
}

// A row of a family, counted from 1. It is a type of its own, so that it never stands where a block's number belongs.
#[derive(Clone, Copy, PartialEq, Eq, PartialOrd, Ord, Debug)]
pub struct RowNumber(pub u16);

// Why a call refused. `docs/REFUSALS.md` has each cause in full, and `specs/Refusals.antt` its number.
#[derive(Clone, Copy, PartialEq, Eq, Debug)]
pub enum Refusal {
    // caused by the input
    EmptyText,
    TooManyLines,
    TooLong,
    NoSuchBlock,
    BadBlockCount,
    NoSuchParameter,
    NoRoom,
    Malformed,
    NotGenuine,
    RowLacksBlock,
    WrongExcerpt,
    RowDiffers,
    // caused by the state
    SheetFull,
    SheetNotEmpty,
    SheetEmpty,
    NoneLeft,
    NotDrawn,
    OtherScheme,
    OtherBlockCount,
    TooManySuspects(u16),
    NoRowVouches,
}

impl Refusal {
    // A method and no `From`: a number alone leaves out the count that 28 carries.
    pub fn number(self) -> u8
        ensures { result ≡ number_of self }
    {
        match self {
            Refusal::EmptyText => 1,
            Refusal::TooManyLines => 2,
            Refusal::TooLong => 3,
            Refusal::NoSuchBlock => 4,
            Refusal::BadBlockCount => 5,
            Refusal::NoSuchParameter => 6,
            Refusal::NoRoom => 7,
            Refusal::Malformed => 8,
            Refusal::NotGenuine => 9,
            Refusal::RowLacksBlock => 10,
            Refusal::WrongExcerpt => 11,
            Refusal::RowDiffers => 12,
            Refusal::SheetFull => 21,
            Refusal::SheetNotEmpty => 22,
            Refusal::SheetEmpty => 23,
            Refusal::NoneLeft => 24,
            Refusal::NotDrawn => 25,
            Refusal::OtherScheme => 26,
            Refusal::OtherBlockCount => 27,
            Refusal::TooManySuspects(_) => 28,
            Refusal::NoRowVouches => 29,
        }
    }

    // The same in plain words, for people who read no numbers.
    pub fn reason(self) -> &'static str
        ensures { result.now ≡ reason_of self }
    {
        match self {
            Refusal::EmptyText => "the text is empty",
            Refusal::TooManyLines => "the text has more than 512 lines",
            Refusal::TooLong => "more than 38,912 bytes",
            Refusal::NoSuchBlock => "no such block",
            Refusal::BadBlockCount => "no family for so many blocks",
            Refusal::NoSuchParameter =>
                "no such family, or the key's next number is above its limit",
            Refusal::NoRoom => "the list or buffer is too short",
            Refusal::Malformed => "not a seal part or not a sealed file",
            Refusal::NotGenuine => "not signed by this key",
            Refusal::RowLacksBlock => "the row does not hold the block",
            Refusal::WrongExcerpt => "the excerpt is not the row's other blocks",
            Refusal::RowDiffers => "the row's digest differs",
            Refusal::SheetFull => "the sheet is full",
            Refusal::SheetNotEmpty => "the sheet is not empty",
            Refusal::SheetEmpty => "the sheet is empty",
            Refusal::NoneLeft => "the key has no numbers left",
            Refusal::NotDrawn => "the number was not drawn by this key",
            Refusal::OtherScheme => "another family or digest than the seal's",
            Refusal::OtherBlockCount => "another count of blocks than the seal's",
            Refusal::TooManySuspects(_) => "too many blocks were changed to say which",
            Refusal::NoRowVouches => "no row tells that the bytes are the sealed ones",
        }
    }
}

impl Error for Refusal {}

impl fmt::Display for Refusal {
    ghost output = { λ r. Some (shown_as r) };

    fn fmt<W: fmt::Write>(&self, f: &mut fmt::Formatter<W>) -> fmt::Result {
        let number = self.number();
        match self {
            Refusal::TooManySuspects(count) => write!(f, "refused {number} {count}"),
            _ => write!(f, "refused {number}"),
        }
    }
}
