// How a call that has no answer is told.
ghost use Rattle.std.specs.Prelude.{◌≡◌};
ghost use Rattle.embedding.specs.Status.{stop_status, stop_suspects};

use answers::Refusal;
use desk::Stop;

const OUT_OF_MEMORY: u8 = 255;

pub(crate) fn status_of(stop: Stop) -> u8
    ensures { result ≡ stop_status stop }
{
    match stop {
        Stop::Refused(refusal) => refusal.number(),
        Stop::OutOfMemory(_) => OUT_OF_MEMORY,
    }
}

// How many suspects there are, where there are too many.
pub(crate) fn suspects_of(stop: Stop) -> Option<u16>
    ensures { result ≡ stop_suspects stop }
{
    match stop {
        Stop::Refused(Refusal::TooManySuspects(count)) => Some(count),
        _ => None,
    }
}
