// A brake test sheet: numbered blocks of bytes, cut from a text or added one by one, and rewritten in place.
#![tactic(auto)]

ghost use Rattle.sheets.specs.Calls.{text_lines, LinesOf};
ghost use Rattle.sheets.specs.Table.{Bytes};

pub mod sheet;

pub use sheet::Sheet;
pub use sheet::blocks::Blocks;

// What a sheet holds at most.
pub const MAX_BLOCKS: usize = 512;

pub const MAX_BYTES: usize = 38_912;

// What cut makes of a text is its lines: joined they are the text, and each but the last ends with its only 0A.
pub fn lines_stand()
    ensures { (text : Bytes) → LinesOf text (text_lines text) }
{}
