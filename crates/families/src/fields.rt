// Finite fields: the numbers below q with a sum and a product.
ghost use Rattle.std.specs.Prelude.{◌≡◌, ℕ, ◌%◌, ◌^◌, ◌<◌, ◌≤◌, true, false, [], ◌∷◌, MatchResult};
ghost use Rattle.std.specs.Result.{result_map_both};
ghost use Rattle.answers.specs.declared.Refusal.TheVariants.{NoSuchParameter};
ghost use Rattle.families.specs.Choice.{product_of};
ghost use Rattle.families.specs.Degrees.{degree};
ghost use Rattle.families.specs.Known.{degree_known};
ghost use Rattle.families.specs.Field.{primes, binaries, field_answer, FieldLaws, mod_sum, mod_product, binary_sum, binary_product, modulus, tabled};
ghost use Rattle.families.specs.Numbers.{among};
ghost use Rattle.families.specs.Primes.{prime_field};
ghost use Rattle.std.proofs.Common.{rules};
ghost use Rattle.families.specs.Binary.{binary_field};
ghost use Rattle.families.specs.Numbered.{degree_offered};

use answers::Refusal;

// Arguments are reduced by q. Three members and no record: the laws and the definitions take each on its own, and few take all.
pub trait Field {
    ghost order: { Self → ℕ };

    ghost plus: { Self → ℕ → ℕ → ℕ };

    ghost times: { Self → ℕ → ℕ → ℕ };

    fn q(&self) -> u8
        ensures { result ≡ order self.now };

    fn sum(&self, a: u8, b: u8) -> u8
        ensures { result ≡ plus self.now a b };

    fn product(&self, a: u8, b: u8) -> u8
        ensures { result ≡ times self.now a b };

    // The element that makes 0 with another.
    fn negative(&self, a: u8) -> u8
        ensures { (result < order self.now) × (plus self.now a result ≡ 0) };

    ghost lawful: { (f : Self) → FieldLaws (order f) (plus f) (times f) };

    ghost offered: { (f : Self) → among (order f) (5 ∷ (7 ∷ (8 ∷ (11 ∷ (13 ∷ (16 ∷ [])))))) ≡ true };
}

// The numbers modulo a prime.
#[derive(Clone, Copy)]
pub struct Prime {
    q: u8,
    ghost prime: { among q (5 ∷ (7 ∷ (11 ∷ (13 ∷ [])))) ≡ true },
}

impl Prime {
    pub fn new(q: u8) -> Result<Prime, Refusal>
        ensures cases { MatchResult result (λ p. p.q ≡ q) (λ e. (e ≡ NoSuchParameter) × (among q (5 ∷ (7 ∷ (11 ∷ (13 ∷ [])))) ≡ false)) }
        ensures answer { result_map_both (λ f. f.q) (λ e. e) result ≡ field_answer primes q }
    {
        match q {
            5 | 7 | 11 | 13 => Ok(Prime { q }),
            _ => Err(Refusal::NoSuchParameter),
        }
    }
}

impl Field for Prime {
    ghost order = { λ f. f.q };

    ghost plus = { λ f. mod_sum f.q };

    ghost times = { λ f. mod_product f.q };

    ghost lawful = { λ f. prime_field f.q f.prime };

    ghost offered = { Prim.search rules };

    fn q(&self) -> u8 {
        self.q
    }

    fn sum(&self, a: u8, b: u8) -> u8 {
        reduced(u16::from(a) + u16::from(b), self.q)
    }

    fn product(&self, a: u8, b: u8) -> u8 {
        ((u16::from(a) * u16::from(b)) % u16::from(self.q)) as u8
    }

    fn negative(&self, a: u8) -> u8 {
        (self.q - a % self.q) % self.q
    }
}

// The remainder by q. It takes no division where the number is below 2 q, as a sum of two elements is.
fn reduced(number: u16, q: u8) -> u8
    requires { 1 ≤ q }
    ensures { result ≡ number % q }
{
    let q = u16::from(q);
    if number < q {
        return number as u8;
    }
    let less = number - q;
    if less < q {
        return less as u8;
    }
    (less % q) as u8
}

// The products of the field of 8, by the modulus 1011 in binary, and of 16, by 10011.
static PRODUCTS8: [[u8; 8]; 8] = [
    [0, 0, 0, 0, 0, 0, 0, 0],
    [0, 1, 2, 3, 4, 5, 6, 7],
    [0, 2, 4, 6, 3, 1, 7, 5],
    [0, 3, 6, 5, 7, 4, 1, 2],
    [0, 4, 3, 7, 6, 2, 5, 1],
    [0, 5, 1, 4, 2, 7, 3, 6],
    [0, 6, 7, 1, 5, 3, 2, 4],
    [0, 7, 5, 2, 1, 6, 4, 3],
];

static PRODUCTS16: [[u8; 16]; 16] = [
    [0, 0, 0, 0, 0, 0, 0, 0, 0, 0, 0, 0, 0, 0, 0, 0],
    [0, 1, 2, 3, 4, 5, 6, 7, 8, 9, 10, 11, 12, 13, 14, 15],
    [0, 2, 4, 6, 8, 10, 12, 14, 3, 1, 7, 5, 11, 9, 15, 13],
    [0, 3, 6, 5, 12, 15, 10, 9, 11, 8, 13, 14, 7, 4, 1, 2],
    [0, 4, 8, 12, 3, 7, 11, 15, 6, 2, 14, 10, 5, 1, 13, 9],
    [0, 5, 10, 15, 7, 2, 13, 8, 14, 11, 4, 1, 9, 12, 3, 6],
    [0, 6, 12, 10, 11, 13, 7, 1, 5, 3, 9, 15, 14, 8, 2, 4],
    [0, 7, 14, 9, 15, 8, 1, 6, 13, 10, 3, 4, 2, 5, 12, 11],
    [0, 8, 3, 11, 6, 14, 5, 13, 12, 4, 15, 7, 10, 2, 9, 1],
    [0, 9, 1, 8, 2, 11, 3, 10, 4, 13, 5, 12, 6, 15, 7, 14],
    [0, 10, 7, 13, 14, 4, 9, 3, 15, 5, 8, 2, 1, 11, 6, 12],
    [0, 11, 5, 14, 10, 1, 15, 4, 7, 12, 2, 9, 13, 6, 8, 3],
    [0, 12, 11, 7, 5, 9, 14, 2, 10, 6, 1, 13, 15, 3, 4, 8],
    [0, 13, 9, 4, 1, 12, 8, 5, 2, 15, 11, 6, 3, 14, 10, 7],
    [0, 14, 15, 1, 13, 3, 2, 12, 9, 7, 6, 8, 4, 10, 11, 5],
    [0, 15, 13, 2, 9, 6, 4, 11, 1, 14, 12, 3, 8, 7, 5, 10],
];

// The bit polynomials of a degree below 3, which are eight, or below 4, which are sixteen.
#[derive(Clone, Copy)]
pub enum Binary {
    Eight,
    Sixteen,
}

impl Binary {
    pub fn new(q: u8) -> Result<Binary, Refusal>
        ensures cases { MatchResult result (λ f. 2 ^ degree f ≡ q) (λ e. (e ≡ NoSuchParameter) × (among q (8 ∷ (16 ∷ [])) ≡ false)) }
        ensures answer { result_map_both (λ f. 2 ^ degree f) (λ e. e) result ≡ field_answer binaries q }
    {
        match q {
            8 => Ok(Binary::Eight),
            16 => Ok(Binary::Sixteen),
            _ => Err(Refusal::NoSuchParameter),
        }
    }
}

impl Field for Binary {
    ghost order = { λ f. 2 ^ degree f };

    ghost plus = { λ f. binary_sum (degree f) };

    ghost times = { λ f. binary_product (degree f) (modulus (degree f)) };

    ghost lawful = { λ f. binary_field (degree f) (degree_known f) };

    ghost offered = { λ f. degree_offered (degree f) (degree_known f) };

    fn q(&self) -> u8 {
        match self {
            Binary::Eight => 8,
            Binary::Sixteen => 16,
        }
    }

    fn sum(&self, a: u8, b: u8) -> u8 {
        let q = self.q();
        (a % q) ^ (b % q)
    }

    fn product(&self, a: u8, b: u8) -> u8 {
        match self {
            Binary::Eight => product_in(&PRODUCTS8, a, b),
            Binary::Sixteen => product_in(&PRODUCTS16, a, b),
        }
    }

    fn negative(&self, a: u8) -> u8 {
        a % self.q()
    }
}

// The product by a table of all products of a binary field's elements.
fn product_in<const Q: usize>(products: &[[u8; Q]; Q], a: u8, b: u8) -> u8
    requires { (among Q binaries ≡ true) × (products.now ≡ tabled (product_of Q) Q) }
    ensures { result ≡ product_of Q a b }
{
    products[usize::from(a) % Q][usize::from(b) % Q]
}
