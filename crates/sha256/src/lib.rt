// SHA-256 of FIPS 180-4, as a digest.
#![tactic(auto)]

ghost use Rattle.sha256.specs.Constants.{ConstantsRule};

use chain::Chain;
use digests::Buffered;

mod block;
mod chain;
mod rounds;
mod schedule;
mod state;

pub type Sha256 = Buffered<Chain>;

// The constants are what the standard says they are.
pub fn constants_stand()
    ensures { ConstantsRule }
{}
