// Running a script, line by line.
ghost use Rattle.std.specs.Prelude.{◌≡◌, ◌++◌, IfOk, string_bytes, OnOk};
ghost use Rattle.nazkoiber.specs.Script.{told, line_told};
ghost use Rattle.nazkoiber.specs.State.{start, state};
ghost use Rattle.nazkoiber.specs.Answering.{answer_text, state_after, Answered, told_text, told_after, printed, line_text, line_after, end_text, lines_text, script_text};

use super::{Bench, Stop};
use crate::call::Call;
use keys::burn;
use scripts::{ParseError, is_silent, split_word};
use sheets::Sheet;
use std::alloc::{AllocError, Global};
use told::Algorithm;

// What a script prints. It begins with an empty sheet.
pub fn replay(alloc: Global, script: &[u8]) -> Result<Vec<u8>, AllocError>
    ensures { IfOk result (λ out. out.items ≡ script_text script.now start) }
{
    let mut out = Vec::new(alloc);
    let mut bench = Bench::new(alloc)?;
    let ran = bench.run_script(script, &mut out);
    let ended = bench.end(&mut out);
    ran?;
    ended?;
    Ok(out)
}

impl Bench {
    fn new(alloc: Global) -> Result<Bench, AllocError>
        ensures { IfOk result (λ b. state b ≡ start) }
    {
        Ok(Bench {
            alloc,
            sheet: Sheet::new(alloc)?,
            digest: Algorithm::Sha256,
            family: None,
            key: None,
            hand: None,
            part: None,
            accepted: false,
        })
    }

    // Runs a script up to its end, and appends a line for each call.
    fn run_script(&mut self, script: &[u8], out: &mut Vec<u8>) -> Result<(), AllocError>
        ensures { OnOk result (out.new.items ++ end_text (state self.new) ≡ out.old.items ++ script_text script.now (state self.old)) }
    {
        for line in script.split(|byte| *byte == b'\n') {
            self.run_line(line, out)?;
        }
        Ok(())
    }

    // Runs one line, and appends its first word with what it answers. Empty lines and comments print nothing.
    #[tactic(auto, unfolding(crate::specs::Answering::line_text, crate::specs::Answering::line_after))]
    fn run_line(&mut self, line: &[u8], out: &mut Vec<u8>) -> Result<(), AllocError>
        ensures after { OnOk result (state self.new ≡ line_after line.now (state self.old)) }
        ensures text { OnOk result (out.new.items ≡ out.old.items ++ line_text line.now (state self.old)) }
    {
        if is_silent(line) {
            return Ok(());
        }
        let answer = self.answer_line(line)?;
        let (word, _) = split_word(line);
        print_answer(word, answer.as_bytes(), out)
    }

    // Runs the call that a line says, if it says one. That a line is not understood is an answer; want of memory goes on.
    fn answer_line(&mut self, line: &[u8]) -> Result<String, AllocError>
        ensures after { OnOk result (state self.new ≡ told_after (line_told line.now) (state self.old)) }
        ensures text { IfOk result (λ s. string_bytes s ≡ told_text (line_told line.now) (state self.old)) }
    {
        match Call::parse(self.alloc, line) {
            Ok(call) => self.run(call),
            Err(ParseError::OutOfMemory(error)) => Err(error),
            Err(error) => format!(in self.alloc; "{error}"),
        }
    }

    // A refusal, and that something is missing, is an answer too; want of memory goes on.
    fn run(&mut self, call: Call) -> Result<String, AllocError>
        ensures after { OnOk result (state self.new ≡ state_after (told call) (state self.old)) }
        ensures text { IfOk result (λ s. string_bytes s ≡ answer_text (told call) (state self.old)) }
    {
        match self.answer(call) {
            Ok(answer) => Ok(answer),
            Err(Stop::Refused(refusal)) => format!(in self.alloc; "{refusal}"),
            Err(Stop::Lacking(missing)) => format!(in self.alloc; "{missing}"),
            Err(Stop::OutOfMemory(error)) => Err(error),
        }
    }

    fn answer(&mut self, call: Call) -> Result<String, Stop>
        ensures { Answered (told call) (state self.old) (state self.new) result }
    {
        match call {
            Call::Clear => self.clear(),
            Call::Cut(text) => self.cut(&text),
            Call::Add(bytes) => self.add(&bytes),
            Call::Rewrite(block, bytes) => self.rewrite(block, &bytes),
            Call::Show(block) => self.show(block),
            Call::Sheet => self.show_sheet(),
            Call::Digest(algorithm) => self.set_digest(algorithm),
            Call::Family(name) => self.set_family(name),
            Call::Choose(n, d) => self.choose(n, d),
            Call::Rows(block) => self.rows(block),
            Call::Key(words) => self.set_key(words),
            Call::Draw => self.draw(),
            Call::Burn => self.burn(),
            Call::Seal(room) => self.seal(room),
            Call::Part => self.show_part(),
            Call::SetPart(bytes) => self.set_part(bytes),
            Call::Accept => self.accept(),
            Call::Check(room) => self.check(room),
            Call::Vouch(block, offered) => self.vouch(block, &offered),
            Call::Pack(room) => self.pack(room),
            Call::Unpack(file) => self.unpack(&file),
            Call::Excerpt(block, row, room) => self.excerpt(block, row, room),
            Call::Confirm(block, row, offered, others) => {
                self.confirm(block, row, &offered, &others)
            }
        }
    }

    // A number that is still in the hand is burned, and said.
    #[tactic(auto, unfolding(crate::specs::Answering::end_text))]
    fn end(self, out: &mut Vec<u8>) -> Result<(), AllocError>
        ensures { OnOk result (out.new.items ≡ out.old.items ++ end_text (state self)) }
    {
        let Bench {
            alloc,
            sheet: _,
            digest: _,
            family: _,
            key: _,
            hand,
            part: _,
            accepted: _,
        } = self;
        let Some(drawn) = hand else {
            return Ok(());
        };
        let number = burn(drawn);
        let answer = format!(in alloc; "burned {number}")?;
        print_answer(b"end", answer.as_bytes(), out)
    }
}

fn print_answer(word: &[u8], answer: &[u8], out: &mut Vec<u8>) -> Result<(), AllocError>
    ensures { OnOk result (out.new.items ≡ out.old.items ++ printed word.now answer.now) }
{
    out.extend_from_slice(word)?;
    out.extend_from_slice(b": ")?;
    out.extend_from_slice(answer)?;
    out.push(b'\n')?;
    Ok(())
}
