// Calls on the sheet.
ghost use Rattle.nazkoiber.specs.Script.{clear, cut, add, rewrite, show, sheet};
ghost use Rattle.nazkoiber.specs.State.{state};
ghost use Rattle.nazkoiber.specs.Answering.{Answered};

use super::{Bench, Stop};
use answers::BlockNumber;
use scripts::Hex;
use sheets::Sheet;

impl Bench {
    // A new sheet has no seal part either.
    pub(super) fn clear(&mut self) -> Result<String, Stop>
        ensures { Answered clear (state self.old) (state self.new) result }
    {
        let answer = String::from_str(self.alloc, "ok")?;
        self.sheet = Sheet::new(self.alloc)?;
        self.accepted = false;
        self.part = None;
        Ok(answer)
    }

    pub(super) fn cut(&mut self, text: &[u8]) -> Result<String, Stop>
        ensures { Answered (cut text.now) (state self.old) (state self.new) result }
    {
        let count = self.sheet.cut(text)?;
        Ok(format!(in self.alloc; "blocks {count}")?)
    }

    pub(super) fn add(&mut self, bytes: &[u8]) -> Result<String, Stop>
        ensures { Answered (add bytes.now) (state self.old) (state self.new) result }
    {
        let number = self.sheet.add(bytes)?.0;
        Ok(format!(in self.alloc; "block {number}")?)
    }

    pub(super) fn rewrite(&mut self, block: BlockNumber, bytes: &[u8]) -> Result<String, Stop>
        ensures { Answered (rewrite block.0 bytes.now) (state self.old) (state self.new) result }
    {
        let total = self.sheet.rewrite(block, bytes)?;
        Ok(format!(in self.alloc; "total {total}")?)
    }

    pub(super) fn show(&self, block: BlockNumber) -> Result<String, Stop>
        ensures { Answered (show block.0) (state self.now) (state self.now) result }
    {
        let bytes = Hex(self.sheet.block(block)?);
        Ok(format!(in self.alloc; "block {bytes}")?)
    }

    pub(super) fn show_sheet(&self) -> Result<String, Stop>
        ensures { Answered sheet (state self.now) (state self.now) result }
    {
        let count = self.sheet.block_count();
        let total = self.sheet.total();
        Ok(format!(in self.alloc; "blocks {count} total {total}")?)
    }
}
