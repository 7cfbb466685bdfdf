// What the calls of a script work on, and why one has no answer of its own.
ghost use Rattle.std.specs.Prelude.{◌≡◌, true, Some};
ghost use Rattle.nazkoiber.specs.Standing.{stands};
ghost use Rattle.nazkoiber.specs.declared.bench.Stop.TheVariants.{Refused, Lacking, OutOfMemory};
ghost use Rattle.nazkoiber.specs.Missed.{missing_text};

pub mod file_calls;
pub mod key_calls;
pub mod run;
pub mod seal_calls;
pub mod sheet_calls;

use answers::Refusal;
use families::any::AnyFamily;
use keyfiles::AnyKey;
use keys::Drawn;
use sheets::Sheet;
use std::alloc::{AllocError, Global};
use std::fmt;
use told::Algorithm;

// It is never dropped: a number in the hand has to be burned first.
struct Bench {
    alloc: Global,
    sheet: Sheet,
    digest: Algorithm,
    family: Option<AnyFamily>,
    key: Option<AnyKey>,
    // The number that is drawn next is sealed under.
    hand: Option<Drawn>,
    part: Option<Vec<u8>>,
    accepted: bool,
    ghost standing: { stands accepted key part ≡ true },
}

// What a call needs and does not find. A full hand is a place that a drawn number does not find.
#[derive(Clone, Copy)]
enum Missing {
    NotAccepted,
    NoPart,
    NoFamily,
    NoKey,
    HandFull,
    HandEmpty,
}

// Why a call has no answer of its own.
#[derive(Clone, Copy)]
enum Stop {
    Refused(Refusal),
    Lacking(Missing),
    OutOfMemory(AllocError),
}

impl fmt::Display for Missing {
    ghost output = { λ m. Some (missing_text m) };

    fn fmt<W: fmt::Write>(&self, f: &mut fmt::Formatter<W>) -> fmt::Result {
        f.write_str(match self {
            Missing::NotAccepted => "not accepted",
            Missing::NoPart => "no part",
            Missing::NoFamily => "no family",
            Missing::NoKey => "no key",
            Missing::HandFull => "hand full",
            Missing::HandEmpty => "hand empty",
        })
    }
}

impl From<Refusal> for Stop {
    ghost from_gives = { λ e s. s ≡ Refused e };

    fn from(refusal: Refusal) -> Stop {
        Stop::Refused(refusal)
    }
}

impl From<Missing> for Stop {
    ghost from_gives = { λ m s. s ≡ Lacking m };

    fn from(missing: Missing) -> Stop {
        Stop::Lacking(missing)
    }
}

impl From<AllocError> for Stop {
    ghost from_gives = { λ e s. s ≡ OutOfMemory e };

    fn from(error: AllocError) -> Stop {
        Stop::OutOfMemory(error)
    }
}
