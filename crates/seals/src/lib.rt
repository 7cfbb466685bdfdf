// Seals of sheets. The functions here do nothing: the contract of each is a theorem.
#![tactic(auto)]

ghost use Rattle.std.specs.Prelude.{List};
ghost use Rattle.digests.specs.Strings.{Bytes};
ghost use Rattle.seals.specs.Scheme.{Scheme, Inspection};
ghost use Rattle.seals.specs.Law.{ExcerptForm, HistoryIsTheSheet};
ghost use Rattle.seals.specs.Cases.{WorkedCases, NotEmpty};

mod accepted;
mod checking;
mod excerpts;
mod frames;
mod head;
mod part;
mod sealing;
mod vouching;

pub use accepted::{Accepted, accept};
pub use frames::{FRAME_HEAD, write_frame};
pub use head::{PartHead, head_of};
pub use part::sealed_count;
pub use sealing::seal;

#[tactic(auto, using(crate::proofs::ExcerptLaw::excerpt_form))]
pub fn excerpts_are_frames()
    ensures { ExcerptForm }
{}

// What the law says by the history of calls, said by the sheet itself.
#[tactic(auto, using(crate::proofs::Unchanged::history_is_the_sheet))]
pub fn history_and_sheet_agree()
    ensures { (s : Scheme) (own : Inspection) (part : Bytes) (sealed : List Bytes) → HistoryIsTheSheet s own part sealed }
{}

#[tactic(auto, using(crate::proofs::Cases::worked_cases))]
pub fn worked_cases()
    ensures { WorkedCases }
{}

// What the law over runs assumes can be met.
#[tactic(auto, using(crate::proofs::Cases::not_empty))]
pub fn hypotheses_can_be_met()
    ensures { NotEmpty }
{}
