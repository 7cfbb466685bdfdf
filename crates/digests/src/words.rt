// The words of an answer, joined.
ghost use Rattle.std.specs.Prelude.{◌≡◌};
ghost use Rattle.std.specs.List.{flat_map};

// The bytes of eight words one after the other.
pub fn join_words(words: [[u8; 4]; 8]) -> [u8; 32]
    ensures { result ≡ flat_map (λ w. w) words }
{
    let mut bytes = [0; 32];
    bytes.copy_from_slice(words.as_flattened());
    bytes
}
