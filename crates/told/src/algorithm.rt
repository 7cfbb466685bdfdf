// The digests by their names.
ghost use Rattle.std.specs.Prelude.{◌≡◌, Some};
ghost use Rattle.told.specs.Algorithms.{algorithm_of, algorithm_name};

use std::fmt;

#[derive(Clone, Copy)]
pub enum Algorithm {
    Sha256,
    Blake2s,
}

impl Algorithm {
    #[tactic(auto, using(scripts::proofs::TableLemmas::row_read))]
    pub fn named(word: &[u8]) -> Option<Algorithm>
        ensures { result ≡ algorithm_of word.now }
    {
        match word {
            b"sha256" => Some(Algorithm::Sha256),
            b"blake2s" => Some(Algorithm::Blake2s),
            _ => None,
        }
    }
}

impl fmt::Display for Algorithm {
    ghost output = { λ a. Some (algorithm_name a) };

    fn fmt<W: fmt::Write>(&self, f: &mut fmt::Formatter<W>) -> fmt::Result {
        f.write_str(match self {
            Algorithm::Sha256 => "sha256",
            Algorithm::Blake2s => "blake2s",
        })
    }
}
