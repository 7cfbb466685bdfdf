// The trailer of a file: how far back from the file's end the seal part starts, and four bytes that are always the same.
ghost use Rattle.std.specs.Prelude.{◌≡◌, ◌+◌, ◌^◌, ◌<◌, ◌≤◌, ◌++◌, length, true, false, MatchOption};
ghost use Rattle.files.specs.File.{trailer, has_trailer, distance, seal_of, frames_of};

const MAGIC: [u8; 4] = [0x00, 0x01, 0x42, 0x54];

// How long a trailer is. The distance counts it too.
pub(crate) const TRAILER: usize = 8;

// Writes a seal part and the trailer behind it, which fill the buffer.
#[tactic(auto, using(seals::proofs::Sealed::number_bytes), unfolding(crate::specs::File::trailer))]
pub(crate) fn put_end(part: &[u8], out: &mut [u8])
    requires { (length part.now + 8 < 2 ^ 32) × (length out.old ≡ length part.now + 8) }
    ensures { out.new ≡ part.now ++ trailer (length part.now) }
{
    let distance = (part.len() + TRAILER) as u32;
    let (seal, trailer) = out.split_at_mut(part.len());
    let (number, magic) = trailer.split_at_mut(4);
    seal.copy_from_slice(part);
    number.copy_from_slice(&distance.to_be_bytes());
    magic.copy_from_slice(&MAGIC);
}

// The distance that a file's trailer says, if it ends with one.
#[tactic(auto, unfolding(crate::specs::File::has_trailer, crate::specs::File::distance, seals::specs::Part::word))]
fn read_distance(file: &[u8]) -> Option<usize>
    ensures { MatchOption result
        (has_trailer file.now ≡ false)
        (λ d. (has_trailer file.now ≡ true) × (d ≡ distance file.now) × (8 ≤ d) × (d < length file.now)) }
{
    let [.., d3, d2, d1, d0, m3, m2, m1, m0] = file else {
        return None;
    };
    let distance = u32::from_be_bytes([*d3, *d2, *d1, *d0]) as usize;
    if [*m3, *m2, *m1, *m0] != MAGIC || distance < TRAILER || distance >= file.len() {
        return None;
    }
    Some(distance)
}

// The frames and the seal part of a file, by what its trailer says.
#[tactic(auto, unfolding(crate::specs::File::seal_place, crate::specs::File::seal_of, crate::specs::File::frames_of))]
pub(crate) fn split_file(file: &[u8]) -> Option<(&[u8], &[u8])>
    ensures { MatchOption result
        (has_trailer file.now ≡ false)
        (λ r. (has_trailer file.now ≡ true) × (r.0.now ≡ frames_of file.now) × (r.1.now ≡ seal_of file.now)) }
{
    let place = file.len() - read_distance(file)?;
    Some((&file[..place], &file[place..file.len() - TRAILER]))
}
