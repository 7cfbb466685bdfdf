// Changes to one sheet, told line by line.
ghost use Rattle.std.specs.Prelude.{◌≡◌};
ghost use Rattle.std.specs.List.{flat_map};
ghost use Rattle.sheets.specs.Blocks.{blocks_of};

use crate::contents::findings_of;
use crate::problem::Problem;
use crate::words::Words;
use answers::BlockNumber;
use desk::{OpenFile, Stop, open_file, pack_file, seal_part};
use digests::Digest;
use families::any::AnyFamily;
use families::family::Family;
use findings::refusal_text;
use keys::{Sealer, TagKey, draw};
use scripts::Hex;
use sha256::Sha256;
use sheets::Sheet;
use told::Algorithm;

// The plate is missing still. No block ends its line here: so a digit can slip with nothing else moved.
static SHEET: [&str; 10] = [
    "plate ............",
    "axle 1 left 812 daN ",
    "right 790 daN ",
    "axle 2 left 1015 ",
    "right 998 daN ",
    "axle 3 left 1120 daN ",
    "right 1101 daN ",
    "parking brake 1202 daN ",
    "weight 24380 kg ",
    "tester 7 passed",
];

const PLATE: BlockNumber = BlockNumber(1);

pub(crate) fn demo<'a>(rt: &HostRuntime, words: &Words<'a>) -> Result<(), Problem<'a>> {
    words.expect(0, &[])?;
    let alloc = rt.alloc();
    let mut sheet = Sheet::new(alloc)?;
    for block in SHEET.iter() {
        let _ = sheet.add(block.as_bytes())?;
    }
    let family = AnyFamily::plane(sheet.block_count())?;
    let mut key = TagKey::<Sha256>::new([7; 32], *b"the demo", 41)?;
    let drawn = draw(&mut key)?;
    let part = seal_part(alloc, &sheet, Algorithm::Sha256, &family, &key, drawn)?;
    let file = pack_file(alloc, &sheet, &part)?;
    let mut opened = open_file(alloc, &key.own(), &file)?;
    let (blocks, rows) = (family.block_count(), family.row_count());
    say(rt, "The sheet, as the roller bench wrote it:")?;
    show_all(rt, &opened.sheet)?;
    println!(rt;
        "\nIt is sealed: {blocks} blocks in {rows} rows, signed once. A check names up to 2 changed blocks."
    ).map_err(|error| Problem::Output(error))?;
    tell_check(rt, &opened)?;
    tell_plate(rt, &mut opened)?;
    tell_slip(rt, &mut opened)?;
    tell_third(rt, &mut opened)
}

fn say<'a>(rt: &HostRuntime, text: &str) -> Result<(), Problem<'a>> {
    println!(rt; "{text}").map_err(|error| Problem::Output(error))
}

fn show_all<'a>(rt: &HostRuntime, sheet: &Sheet) -> Result<(), Problem<'a>> {
    for (index, block) in SHEET.iter().enumerate() {
        let number = index + 1;
        println!(rt; "  {number:>2}  {block}").map_err(|error| Problem::Output(error))?;
    }
    let digest = Hex(&joined_digest::<Sha256>(sheet)[..8]);
    println!(rt; "  One digest of the whole text begins {digest}.").map_err(|error| Problem::Output(
        error,
    ))
}

// The digest of the blocks joined bare, with no frames.
fn joined_digest<D: Digest>(sheet: &Sheet) -> [u8; 32]
    ensures { result ≡ D.digest (flat_map (λ b. b) (blocks_of sheet.now)) }
{
    let mut digest = D::start();
    for block in sheet.blocks() {
        digest.take(block);
    }
    digest.end()
}

fn tell_check<'a>(rt: &HostRuntime, opened: &OpenFile) -> Result<(), Problem<'a>> {
    let alloc = rt.alloc();
    let mut list = [0; 2];
    let text = match findings_of(alloc, opened, &mut list) {
        Ok(text) => text,
        Err(Stop::Refused(refusal)) => refusal_text(alloc, refusal)?,
        Err(Stop::OutOfMemory(error)) => return Err(Problem::from(error)),
    };
    rt.print("\nnazkoiber check\n")
        .map_err(|error| Problem::Output(error))?;
    rt.print(&text).map_err(|error| Problem::Output(error))
}

fn tell_plate<'a>(rt: &HostRuntime, opened: &mut OpenFile) -> Result<(), Problem<'a>> {
    say(rt, "\nThe plate is typed in after the test.")?;
    let _ = opened.sheet.rewrite(PLATE, b"plate KA RS 1407")?;
    tell_check(rt, opened)
}

fn tell_slip<'a>(rt: &HostRuntime, opened: &mut OpenFile) -> Result<(), Problem<'a>> {
    say(
        rt,
        "\nIt is taken out again. Then a digit slips from one block to the next: axle 2 has 101 on its left, and 5 stands before its right.",
    )?;
    let _ = opened.sheet.rewrite(PLATE, SHEET[0].as_bytes())?;
    let _ = opened.sheet.rewrite(BlockNumber(4), b"axle 2 left 101")?;
    let _ = opened.sheet.rewrite(BlockNumber(5), b"5 right 998 daN ")?;
    let digest = Hex(&joined_digest::<Sha256>(&opened.sheet)[..8]);
    println!(rt;
        "  One digest of the whole text begins {digest} as before: a signature of it says nothing."
    ).map_err(|error| Problem::Output(error))?;
    tell_check(rt, opened)
}

fn tell_third<'a>(rt: &HostRuntime, opened: &mut OpenFile) -> Result<(), Problem<'a>> {
    say(
        rt,
        "\nA third block is changed, one more than the rows can tell apart.",
    )?;
    let _ = opened.sheet.rewrite(BlockNumber(10), b"tester 7 failed")?;
    tell_check(rt, opened)
}
