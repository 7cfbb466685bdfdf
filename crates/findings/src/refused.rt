// Why a call refused, with its words.
ghost use Rattle.std.specs.Prelude.{◌≡◌, IfOk, option_to_list, string_bytes};
ghost use Rattle.answers.specs.Refusals.{values_of};
ghost use Rattle.findings.specs.Refused.{refusal_text};

use answers::Refusal;
use std::alloc::{AllocError, Global};

// The line of a refusal: its number, its words, and the count of suspects where it carries one.
#[tactic(auto, unfolding(crate::specs::Refused::refusal_text))]
pub fn refusal_text(alloc: Global, refusal: Refusal) -> Result<String, AllocError>
    ensures { IfOk result (λ s. string_bytes s ≡ refusal_text refusal) }
{
    let number = refusal.number();
    let reason = refusal.reason();
    match suspect_count(refusal) {
        Some(count) => format!(in alloc; "refused {number}: {reason} ({count} suspects)\n"),
        None => format!(in alloc; "refused {number}: {reason}\n"),
    }
}

// The count that a refusal carries.
fn suspect_count(refusal: Refusal) -> Option<u16>
    ensures { option_to_list result ≡ values_of refusal }
{
    match refusal {
        Refusal::TooManySuspects(count) => Some(count),
        _ => None,
    }
}
