// What lines ask of LMS keys.
ghost use Rattle.std.specs.Prelude.{◌≡◌, ◌<◌, IfOk, take, drop, string_bytes};
ghost use Rattle.scripts.specs.Reading.{Reads};
ghost use Rattle.sha256.specs.Sha256.{sha256_of};
ghost use Rattle.lms.specs.Lms.{lms_root, lms_sign};
ghost use Rattle.vectors.specs.LmsLines.{root_text, signature_text, says_of, root_answer, sign_answer, verify_answer};

use crate::tag::print_says;
use keys::{Inspector, sign_next};
use lms::{LmsKey, LmsPublic};
use scripts::{Hex, ParseError, Words, decode_array, decode_hex, parse_number};
use std::alloc::{AllocError, Global};

// The last leaf of a tree.
const LAST_LEAF: u32 = 31;

// The bytes of each signature.
const SIGNATURE_SIZE: usize = 1292;

// The root of the tree of an identifier and a seed.
pub fn answer_root(alloc: Global, mut words: Words) -> Result<String, ParseError>
    ensures { Reads string_bytes (root_answer words.entry) result }
{
    let id = decode_array::<16>(alloc, words.next_word()?)?;
    let seed = decode_array::<32>(alloc, words.last_word()?)?;
    Ok(print_root(alloc, root(id, seed))?)
}

// Signs a text by a leaf.
pub fn answer_sign(alloc: Global, mut words: Words) -> Result<String, ParseError>
    ensures { Reads string_bytes (sign_answer words.entry) result }
{
    let id = decode_array::<16>(alloc, words.next_word()?)?;
    let seed = decode_array::<32>(alloc, words.next_word()?)?;
    let leaf = parse_number(words.next_word()?, LAST_LEAF).ok_or(ParseError::NotUnderstood)?;
    let text = decode_hex(alloc, words.last_word()?)?;
    Ok(print_signature(alloc, &sign(id, seed, leaf, &text))?)
}

// Says yes or no to a signature, with no more than the public part.
pub fn answer_verify(alloc: Global, mut words: Words) -> Result<String, ParseError>
    ensures { Reads string_bytes (verify_answer words.entry) result }
{
    let public = decode_array::<48>(alloc, words.next_word()?)?;
    let number = parse_number(words.next_word()?, u32::MAX).ok_or(ParseError::NotUnderstood)?;
    let text = decode_hex(alloc, words.next_word()?)?;
    let signature = decode_hex(alloc, words.last_word()?)?;
    Ok(print_says(alloc, verify(&public, number, &text, &signature))?)
}

// A key that goes on at a leaf of the tree is never refused.
fn root(id: [u8; 16], seed: [u8; 32]) -> [u8; 32]
    ensures { result ≡ lms_root sha256_of id seed }
{
    LmsKey::new(id, seed, 0).unwrap().public().root()
}

// The key is made for this one leaf.
#[tactic(auto, using(lms::specs::KeyLaw::key_sized, crate::proofs::Filled::filled))]
fn sign(id: [u8; 16], seed: [u8; 32], leaf: u32, text: &[u8]) -> [u8; SIGNATURE_SIZE]
    requires { leaf < 32 }
    ensures { result ≡ lms_sign sha256_of id seed leaf text.now }
{
    let mut key = LmsKey::new(id, seed, leaf).unwrap();
    let mut signature = [0; SIGNATURE_SIZE];
    let _ = sign_next(&mut key, text, &mut signature).unwrap();
    signature
}

fn verify(public: &[u8; 48], number: u32, text: &[u8], signature: &[u8]) -> bool
    ensures { result ≡ says_of public.now number text.now signature.now }
{
    public_part(public).inspect(number, text, signature)
}

// The identifier and then the root.
fn public_part(public: &[u8; 48]) -> LmsPublic
    ensures id { result.id ≡ take 16 public.now }
    ensures root { result.root ≡ drop 16 public.now }
{
    let (front, back) = public.split_at(16);
    let mut id = [0; 16];
    id.copy_from_slice(front);
    let mut root = [0; 32];
    root.copy_from_slice(back);
    LmsPublic::new(id, root)
}

fn print_root(alloc: Global, root: [u8; 32]) -> Result<String, AllocError>
    ensures { IfOk result (λ s. string_bytes s ≡ root_text root) }
{
    let root = Hex(&root);
    format!(in alloc; "root {root}")
}

fn print_signature(alloc: Global, signature: &[u8; SIGNATURE_SIZE]) -> Result<String, AllocError>
    ensures { IfOk result (λ s. string_bytes s ≡ signature_text signature.now) }
{
    let signature = Hex(signature);
    format!(in alloc; "signature {signature}")
}
