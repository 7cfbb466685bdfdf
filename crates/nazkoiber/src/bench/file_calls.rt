// Calls that make a sealed file, and that take one apart.
ghost use Rattle.std.specs.Prelude.{◌≡◌, ◌++◌, codes, IfOk, string_bytes};
ghost use Rattle.scripts.specs.Hex.{hex_text};
ghost use Rattle.nazkoiber.specs.Script.{pack, unpack};
ghost use Rattle.nazkoiber.specs.State.{state};
ghost use Rattle.nazkoiber.specs.Answering.{Answered};

use super::{Bench, Missing, Stop};
use files::{pack, unpack};
use scripts::Hex;
use std::alloc::{AllocError, Global};

impl Bench {
    pub(super) fn pack(&self, room: usize) -> Result<String, Stop>
        ensures { Answered (pack room) (state self.now) (state self.now) result }
    {
        let part = self.part.as_ref().ok_or(Missing::NoPart)?;
        let mut out = vec![in self.alloc; 0; room]?;
        let length = pack(&self.sheet, part, &mut out)?;
        Ok(file_text(self.alloc, &out[..length])?)
    }

    // The file's seal part is the present one then, and not accepted.
    #[tactic(auto, using(files::proofs::SealPlace::part_fits, files::proofs::SealPlace::part_there))]
    pub(super) fn unpack(&mut self, file: &[u8]) -> Result<String, Stop>
        ensures { Answered (unpack file.now) (state self.old) (state self.new) result }
    {
        let (place, length) = unpack(&mut self.sheet, file)?;
        let part = file[place..place + length].to_vec(self.alloc)?;
        self.accepted = false;
        self.part = Some(part);
        Ok(format!(in self.alloc; "part {place} {length}")?)
    }
}

fn file_text(alloc: Global, bytes: &[u8]) -> Result<String, AllocError>
    ensures { IfOk result (λ s. string_bytes s ≡ codes "file " ++ hex_text bytes.now) }
{
    let bytes = Hex(bytes);
    format!(in alloc; "file {bytes}")
}
