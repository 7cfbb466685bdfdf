// A family of any kind, for programs that learn the kind as they run.
ghost use Rattle.std.specs.Prelude.{◌≡◌, ◌^◌};
ghost use Rattle.std.specs.Result.{result_map_both};
ghost use Rattle.families.specs.Any.{any_shape};
ghost use Rattle.families.specs.Choice.{numbered_answer};
ghost use Rattle.families.specs.Making.{single_answer, halves_answer, plane_answer};
ghost use Rattle.families.specs.declared.any.AnyFamily.TheVariants.{Single, Halves, PrimePolynomial, BinaryPolynomial, Plane};
ghost use Rattle.families.specs.Degrees.{degree};
ghost use Rattle.families.specs.Known.{degree_known};
ghost use Rattle.families.specs.Field.{mod_sum, mod_product, binary_sum, binary_product, modulus};
ghost use Rattle.families.specs.Primes.{prime_field};
ghost use Rattle.families.specs.Binary.{binary_field};
ghost use Rattle.families.specs.Numbered.{prime_offered, degree_offered};
ghost use Rattle.families.specs.Lawful.{single_lawful, halves_lawful, plane_lawful, poly_lawful};

use crate::family::Family;
use crate::fields::{Binary, Field, Prime};
use crate::halves::Halves;
use crate::plane::Plane;
use crate::polynomial::Polynomial;
use crate::single::Single;
use answers::{BlockNumber, Refusal, RowNumber};

#[derive(Drop)]
pub enum AnyFamily {
    Single(Single),
    Halves(Halves),
    PrimePolynomial(Polynomial<Prime>),
    BinaryPolynomial(Polynomial<Binary>),
    Plane(Plane),
}

// A call for each kind: one over all kinds would be told the kind by a type, and who calls these learns it as the program runs.
impl AnyFamily {
    pub fn single(n: u16) -> Result<AnyFamily, Refusal>
        ensures { result_map_both any_shape (λ e. e) result ≡ single_answer n }
    {
        Ok(AnyFamily::Single(Single::new(n)?))
    }

    pub fn halves(n: u16) -> Result<AnyFamily, Refusal>
        ensures { result_map_both any_shape (λ e. e) result ≡ halves_answer n }
    {
        Ok(AnyFamily::Halves(Halves::new(n)?))
    }

    pub fn polynomial(q: u8, k: u8, n: u16) -> Result<AnyFamily, Refusal>
        ensures { result_map_both any_shape (λ e. e) result ≡ numbered_answer q k n }
    {
        match q {
            8 | 16 => {
                let field = Binary::new(q)?;
                Ok(AnyFamily::BinaryPolynomial(Polynomial::new(field, k, n)?))
            }
            _ => {
                let field = Prime::new(q)?;
                Ok(AnyFamily::PrimePolynomial(Polynomial::new(field, k, n)?))
            }
        }
    }

    pub fn plane(n: u16) -> Result<AnyFamily, Refusal>
        ensures { result_map_both any_shape (λ e. e) result ≡ plane_answer n }
    {
        Ok(AnyFamily::Plane(Plane::new(n)?))
    }
}

// The same question to the family of whatever kind. No `dyn Family`: Rattle refuses a function that makes one and hands it out, as a call that chooses a family would.
macro_rules! ask {
    ($any:expr, $family:ident => $answer:expr) => {
        match $any {
            AnyFamily::Single($family) => $answer,
            AnyFamily::Halves($family) => $answer,
            AnyFamily::PrimePolynomial($family) => $answer,
            AnyFamily::BinaryPolynomial($family) => $answer,
            AnyFamily::Plane($family) => $answer,
        }
    };
}

impl Family for AnyFamily {
    ghost shape = { any_shape };

    ghost lawful = { elim [
      | Single f ↦ single_lawful f.blocks.n f.blocks.some f.blocks.most
      | Halves f ↦ halves_lawful f.blocks.n f.blocks.some f.blocks.most
      | PrimePolynomial f ↦
          let q = f.field.q in
          poly_lawful q (mod_sum q) (mod_product q) (prime_field q f.field.prime) (prime_offered q f.field.prime) f.k f.blocks.n f.degree f.blocks.some f.blocks.most
      | BinaryPolynomial f ↦
          let e = degree f.field in
          poly_lawful (2 ^ e) (binary_sum e) (binary_product e (modulus e)) (binary_field e (degree_known f.field)) (degree_offered e (degree_known f.field)) f.k f.blocks.n f.degree f.blocks.some f.blocks.most
      | Plane f ↦ plane_lawful f.blocks.n f.blocks.some f.blocks.most
    ] };

    fn kind_byte(&self) -> u8 {
        ask!(self, family => family.kind_byte())
    }

    fn q(&self) -> u8 {
        ask!(self, family => family.q())
    }

    fn k(&self) -> u8 {
        ask!(self, family => family.k())
    }

    fn block_count(&self) -> u16 {
        ask!(self, family => family.block_count())
    }

    fn row_count(&self) -> u16 {
        ask!(self, family => family.row_count())
    }

    fn strength(&self) -> u16 {
        ask!(self, family => family.strength())
    }

    fn holds(&self, row: RowNumber, block: BlockNumber) -> bool {
        ask!(self, family => family.holds(row, block))
    }

    fn next_block(&self, row: RowNumber, after: BlockNumber) -> Option<BlockNumber> {
        ask!(self, family => family.next_block(row, after))
    }
}
