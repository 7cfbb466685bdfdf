// Comparing tags and digests.
ghost use Rattle.std.specs.Prelude.{◌≡◌, bit_or, bit_xor};
ghost use Rattle.std.specs.List.{fold, zip};
ghost use Rattle.digests.specs.Strings.{same};

// Whether two strings are equal. No `==`: of two that are equally long it looks at every byte whatever it has seen, so that the time it takes tells nothing of where they differ.
#[tactic(auto, using(crate::proofs::Same::same_by_fold, crate::proofs::Same::same_length))]
pub fn same_bytes(a: &[u8], b: &[u8]) -> bool
    ensures { result ≡ same a.now b.now }
{
    a.len() == b.len() && difference(a, b) == 0
}

// The bits in which a byte of one differs from the other's.
fn difference(a: &[u8], b: &[u8]) -> u8
    ensures { result ≡ fold (λ seen p. bit_or seen (bit_xor p.0 p.1)) 0 (zip a.now b.now) }
{
    a.iter().zip(b).fold(0, |seen, (x, y)| seen | (x ^ y))
}
