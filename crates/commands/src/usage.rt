// How the commands are used.
ghost use Rattle.std.specs.Prelude.{◌≡◌};
ghost use Rattle.commands.specs.Usages.{usage_text, page_text};

use crate::command::Command;

const OVERVIEW: &str = "\
usage: nazkoiber COMMAND ..

Keys
  key new tag|lms FILE       make a key
  key public FILE OUT        write the public part of an LMS key
  key show FILE              what may be shown of a key
Sheets
  seal KEY SHEET OUT         cut a sheet into its lines and seal them
  check KEY FILE             name the changed blocks of a sealed file
  rewrite FILE BLOCK TEXT OUT
                             exchange the text of a block
  show FILE                  what a sealed file says
  lines FILE                 the blocks of a sheet, before it is sealed
One block
  vouch KEY FILE BLOCK TEXT  tell by a row whether bytes are a block's sealed ones
  excerpt KEY FILE BLOCK ROW OUT
                             write the other blocks of that row
  part FILE OUT              write the seal part of a sealed file
  confirm KEY PART BLOCK ROW TEXT EXCERPT
                             tell by the seal part and the excerpt alone
Besides
  demo                       changes to a sheet, told line by line
  replay                     run a script of calls from standard input

nazkoiber COMMAND --help says more. No command overwrites a file, but that a
key's file is written anew for each number that it draws.
";

const KEYS: &str = "\
usage: nazkoiber key new tag|lms FILE [--name HEX] [--digest sha256|blake2s]
       nazkoiber key public FILE OUT
       nazkoiber key show FILE
";

const KEY_NEW: &str = "\
usage: nazkoiber key new tag|lms FILE [--name HEX] [--digest sha256|blake2s]

Makes a key from the system's random source and writes its file, which only
its owner may read. A tag key signs 1,000,000 seals, and whoever can check
them can sign. An LMS key signs 32, and its public part can only check.

  --name HEX      the name of the key, 8 bytes as 16 hex digits (random)
  --digest NAME   what a tag key makes its tags by (sha256)
";

const KEY_PUBLIC: &str = "\
usage: nazkoiber key public FILE OUT

Writes the public part of an LMS key. Who holds it can check seals and sign
none.
";

const KEY_SHOW: &str = "\
usage: nazkoiber key show FILE

Prints a key's kind and name, the number that it draws next, and how many are
left. Never a secret.
";

const SEAL: &str = "\
usage: nazkoiber seal KEY SHEET OUT [--changes D] [--digest sha256|blake2s]

Cuts the text of SHEET into blocks, each line one, seals them under the next
number of the key, and writes the sealed file OUT. The file of the key is
written first: a crash loses a number, and never uses one twice. A sheet has at
most 512 lines and 38,912 bytes.

  --changes D     how many changed blocks a check can name (2): 1 to 7, or 10 of
                  up to 121 lines, 12 of up to 169, 15 of up to 256
  --digest NAME   the digest of rows and sheet (sha256)
";

const CHECK: &str = "\
usage: nazkoiber check KEY FILE

Names the blocks of a sealed file that were changed after it was sealed, with
the text that they have now. KEY is the key that sealed it, or its public
part.
";

const REWRITE: &str = "\
usage: nazkoiber rewrite FILE BLOCK TEXT OUT

Writes a sealed file OUT like FILE, with the bytes of the file TEXT for the
block with that number. The seal stays as it is, so that a check names the
block. The end of its line is a part of the block.
";

const VOUCH: &str = "\
usage: nazkoiber vouch KEY FILE BLOCK TEXT

Tells whether the bytes of the file TEXT are those that the block was sealed
with, whatever is changed elsewhere, and prints the lowest row that shows it.
The end of its line is a part of the block.
";

const EXCERPT: &str = "\
usage: nazkoiber excerpt KEY FILE BLOCK ROW OUT

Writes the other blocks of a row that holds the block. With them and the seal
part, `confirm` needs no sheet.
";

const CONFIRM: &str = "\
usage: nazkoiber confirm KEY PART BLOCK ROW TEXT EXCERPT

Tells by a seal part and an excerpt whether the bytes of the file TEXT are
those that the block was sealed with.
";

const PART: &str = "\
usage: nazkoiber part FILE OUT

Writes the seal part of a sealed file.
";

const SHOW: &str = "\
usage: nazkoiber show FILE

Prints what a sealed file says: seal number, family, digest, kind of key, and
its blocks. It checks nothing.
";

const LINES: &str = "\
usage: nazkoiber lines FILE

Prints the number and the length of each block that a text is cut into.
";

const DEMO: &str = "\
usage: nazkoiber demo

Tells, line by line, of a plate that is typed in after the test, of a digit
that slips from one block to the next, and of one change too many.
";

const REPLAY: &str = "\
usage: nazkoiber replay

Runs a script of calls from standard input, and prints what each answered.
";

// A usage that is printed as a whole.
#[derive(Clone, Copy)]
pub enum Page {
    Overview,
    Keys,
    Of(Command),
}

impl Page {
    pub(crate) fn text(self) -> &'static str
        ensures { result.now ≡ page_text self }
    {
        match self {
            Page::Overview => OVERVIEW,
            Page::Keys => KEYS,
            Page::Of(command) => command.usage(),
        }
    }
}

impl Command {
    fn usage(self) -> &'static str
        ensures { result.now ≡ usage_text self }
    {
        match self {
            Command::KeyNew => KEY_NEW,
            Command::KeyPublic => KEY_PUBLIC,
            Command::KeyShow => KEY_SHOW,
            Command::Seal => SEAL,
            Command::Check => CHECK,
            Command::Rewrite => REWRITE,
            Command::Vouch => VOUCH,
            Command::Excerpt => EXCERPT,
            Command::Confirm => CONFIRM,
            Command::Part => PART,
            Command::Show => SHOW,
            Command::Lines => LINES,
            Command::Demo => DEMO,
            Command::Replay => REPLAY,
        }
    }
}
