// What a seal part says of itself: its number, family, digest and key.
ghost use Rattle.std.specs.Prelude.{◌≡◌, ◌++◌, Some, OnOk, string_bytes};
ghost use Rattle.findings.specs.Head.{family_name, digest_kind_name, key_kind_name, family_line, kind_lines};

use seals::PartHead;
use std::alloc::AllocError;
use std::fmt;
use std::fmt::Write;

// A family's kind, with q and k where it has them.
#[derive(Clone, Copy)]
struct FamilyName {
    kind: u8,
    q: u8,
    k: u8,
}

impl fmt::Display for FamilyName {
    ghost output = { λ f. Some (family_name f.kind f.q f.k) };

    #[tactic(auto, unfolding(crate::specs::Head::family_name))]
    fn fmt<W: fmt::Write>(&self, f: &mut fmt::Formatter<W>) -> fmt::Result {
        let FamilyName { kind, q, k } = *self;
        match kind {
            1 => f.write_str("single"),
            2 => f.write_str("halves"),
            3 => write!(f, "polynomial q {q} k {k}"),
            4 => f.write_str("plane"),
            _ => write!(f, "kind {kind}"),
        }
    }
}

#[derive(Clone, Copy)]
struct DigestKind(u8);

impl fmt::Display for DigestKind {
    ghost output = { λ d. Some (digest_kind_name d.0) };

    #[tactic(auto, unfolding(crate::specs::Head::digest_kind_name))]
    fn fmt<W: fmt::Write>(&self, f: &mut fmt::Formatter<W>) -> fmt::Result {
        let kind = self.0;
        match kind {
            1 => f.write_str("sha256"),
            2 => f.write_str("blake2s"),
            _ => write!(f, "kind {kind}"),
        }
    }
}

#[derive(Clone, Copy)]
struct KeyKind(u8);

impl fmt::Display for KeyKind {
    ghost output = { λ k. Some (key_kind_name k.0) };

    #[tactic(auto, unfolding(crate::specs::Head::key_kind_name))]
    fn fmt<W: fmt::Write>(&self, f: &mut fmt::Formatter<W>) -> fmt::Result {
        let kind = self.0;
        match kind {
            1 => f.write_str("tag"),
            2 => f.write_str("lms"),
            _ => write!(f, "kind {kind}"),
        }
    }
}

// Appends the line of the family.
#[tactic(auto, unfolding(crate::specs::Head::family_line))]
pub fn push_family(text: &mut String, head: PartHead) -> Result<(), AllocError>
    ensures { OnOk result (string_bytes text.new ≡ string_bytes text.old ++ family_line head) }
{
    let PartHead {
        kind,
        q,
        k,
        blocks,
        rows,
        strength,
        ..
    } = head;
    let family = FamilyName { kind, q, k };
    writeln!(
        text,
        "family {family}, {blocks} blocks in {rows} rows, strength {strength}"
    )
}

// Appends the lines of the digest and the key.
#[tactic(auto, unfolding(crate::specs::Head::kind_lines))]
pub fn push_kinds(text: &mut String, head: PartHead) -> Result<(), AllocError>
    ensures { OnOk result (string_bytes text.new ≡ string_bytes text.old ++ kind_lines head) }
{
    let digest = DigestKind(head.digest_kind);
    let key = KeyKind(head.sealer_kind);
    writeln!(text, "digest {digest}\nkey {key}")
}
