// Kind 3: a block is a polynomial over a field, and lies in the row of each element with the value there.
ghost use Rattle.std.specs.Prelude.{◌≡◌, ◌+◌, ◌-◌, ◌*◌, ◌/◌, ◌%◌, ◌^◌, ◌<◌, ◌≤◌, true};
ghost use Rattle.std.specs.Result.{result_map_both};
ghost use Rattle.families.specs.Making.{poly_answer};
ghost use Rattle.families.specs.Numbers.{among};
ghost use Rattle.families.specs.Polynomial.{coefficient_counts, digits, value, poly_shape, Only, FirstWith, Negated};
ghost use Rattle.families.specs.Lawful.{poly_lawful};

use crate::blocks::{BlockCount, is_within};
use crate::family::Family;
use crate::fields::Field;
use answers::{BlockNumber, Refusal, RowNumber};

// Entries of a table of negatives: the numbers below 512, and two groups of at most 16 behind them.
const ENTRIES: u16 = 544;

#[derive(Drop)]
pub struct Polynomial<F: Field> {
    field: F,
    k: u8,
    blocks: BlockCount<512>,
    // So that the next block of a row takes one sum, and no value of a polynomial.
    negatives: [u8; 544],
    ghost degree: { among k coefficient_counts ≡ true },
    ghost negated: { Negated (F.order field) (F.plus field) (F.times field) k 544 negatives },
}

impl<F: Field + Drop> Polynomial<F> {
    pub fn new(field: F, k: u8, n: u16) -> Result<Polynomial<F>, Refusal>
        ensures { result_map_both (λ f. poly_shape (F.order f.field) (F.plus f.field) (F.times f.field) f.k f.blocks.n) (λ e. e) result
            ≡ poly_answer (F.order field) (F.plus field) (F.times field) k n }
    {
        if !(2..=4).contains(&k) {
            return Err(Refusal::NoSuchParameter);
        }
        let blocks = BlockCount::new(n)?;
        if u32::from(n) > power(field.q(), k) {
            return Err(Refusal::BadBlockCount);
        }
        let negatives = negatives(&field, k);
        Ok(Polynomial {
            field,
            k,
            blocks,
            negatives,
        })
    }
}

impl<F: Field> Family for Polynomial<F> {
    ghost shape = { λ f. poly_shape (F.order f.field) (F.plus f.field) (F.times f.field) f.k f.blocks.n };

    ghost lawful = { λ f.
        poly_lawful (F.order f.field) (F.plus f.field) (F.times f.field) (F.lawful f.field) (F.offered f.field)
        f.k f.blocks.n f.degree f.blocks.some f.blocks.most };

    fn kind_byte(&self) -> u8 {
        3
    }

    fn q(&self) -> u8 {
        self.field.q()
    }

    fn k(&self) -> u8 {
        self.k
    }

    // Capped here, whatever the field: so the struct asks nothing of the field and the count together.
    fn block_count(&self) -> u16 {
        let most = power(self.field.q(), self.k);
        most.min(u32::from(self.blocks.get())) as u16
    }

    fn row_count(&self) -> u16 {
        let q = u16::from(self.field.q());
        q * q
    }

    fn strength(&self) -> u16 {
        (u16::from(self.field.q()) - 1) / (u16::from(self.k) - 1)
    }

    // The same tests as every kind's; `is_within` says why they stand in each.
    fn holds(&self, row: RowNumber, block: BlockNumber) -> bool {
        if !is_within(self.row_count(), row.0) {
            return false;
        }
        if !is_within(self.block_count(), block.0) {
            return false;
        }
        let (element, value) = point_of(row, self.field.q());
        value_at(&self.field, self.k, block.0 - 1, element) == value
    }

    // Among blocks that differ in the constant alone, a row holds one, so that at most two lie between a block and the next.
    fn next_block(&self, row: RowNumber, after: BlockNumber) -> Option<BlockNumber> {
        let n = self.block_count();
        if !is_within(self.row_count(), row.0) {
            return None;
        }
        if after.0 >= n {
            return None;
        }
        let (element, value) = point_of(row, self.field.q());
        let next = self.first_with(element, value, after.0);
        if next < n {
            Some(BlockNumber(next + 1))
        } else {
            None
        }
    }
}

// The element that a row belongs to, and the value there.
fn point_of(row: RowNumber, q: u8) -> (u8, u8)
    requires { (1 ≤ q) × (1 ≤ row.0) × (row.0 ≤ 256) }
    ensures element { result.0 ≡ (row.0 - 1) / q }
    ensures value { result.1 ≡ (row.0 - 1) % q }
{
    let place = row.0 - 1;
    ((place / u16::from(q)) as u8, (place % u16::from(q)) as u8)
}

// q^k
pub(crate) fn power(q: u8, k: u8) -> u32
    requires { (q ≤ 16) × (k ≤ 4) }
    ensures { result ≡ q ^ k }
{
    u32::from(q).pow(u32::from(k))
}

// The value at an element of the polynomial whose coefficients are the k lowest digits of a number, the constant lowest.
// Field and k are two parameters here and below, and no struct: k falls by one from coefficient to coefficient.
fn value_at<F: Field>(field: &F, k: u8, number: u16, element: u8) -> u8
    ensures { result ≡ value (F.plus field.now) (F.times field.now) (digits (F.order field.now) k number) element }
{
    if k == 0 {
        return 0;
    }
    let (digit, higher) = split_digit(number, field.q());
    let rest = value_at(field, k - 1, higher, element);
    field.sum(digit, field.product(element, rest))
}

// The lowest digit of a number in base q, and the digits above it.
fn split_digit(number: u16, q: u8) -> (u8, u16)
    requires { 1 ≤ q }
    ensures digit { result.0 ≡ number % q }
    ensures higher { result.1 ≡ number / q }
{
    ((number % u16::from(q)) as u8, number / u16::from(q))
}

// For each number, the negative of what its digits above the lowest add to a value, at the element that is its lowest digit.
fn negatives<F: Field>(field: &F, k: u8) -> [u8; 544]
    requires { 1 ≤ k }
    ensures { Negated (F.order field.now) (F.plus field.now) (F.times field.now) k 544 result }
{
    let mut negatives = [0; 544];
    for number in 0..ENTRIES {
        let (element, higher) = split_digit(number, field.q());
        let rest = field.product(element, value_at(field, k - 1, higher, element));
        negatives[usize::from(number)] = field.negative(rest);
    }
    negatives
}

impl<F: Field> Polynomial<F> {
    // The first number, from one on, whose digits make a value at an element.
    fn first_with(&self, element: u8, value: u8, from: u16) -> u16
        requires { (element < F.order self.now.field) × (value < F.order self.now.field) × (from ≤ 512) }
        ensures first { FirstWith (F.order self.now.field) (F.plus self.now.field) (F.times self.now.field) self.now.k element value from result }
        ensures bound { result ≤ 600 }
    {
        let q = u16::from(self.field.q());
        let group = from / q;
        let here = group * q + self.constant_with(group, element, value);
        if from <= here {
            return here;
        }
        (group + 1) * q + self.constant_with(group + 1, element, value)
    }

    // The lowest digit that makes a value at an element, with the digits of a number above it.
    fn constant_with(&self, higher: u16, element: u8, value: u8) -> u16
        requires { (element < F.order self.now.field) × (value < F.order self.now.field) × (higher * F.order self.now.field + element < 544) }
        ensures { Only (F.order self.now.field) (F.plus self.now.field) (F.times self.now.field) (digits (F.order self.now.field) (self.now.k - 1) higher) element value result }
    {
        let place = higher * u16::from(self.field.q()) + u16::from(element);
        u16::from(self.field.sum(value, self.negatives[usize::from(place)]))
    }
}
