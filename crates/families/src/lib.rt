// Families of rows: which blocks a row holds, so that a few changed blocks show which they are. Theorems first, each on the contract of a function.
#![tactic(auto)]

ghost use Rattle.families.specs.Family.{BoundedInside};
ghost use Rattle.families.specs.Field.{PrimeFields, BinaryFields};
ghost use Rattle.families.specs.Polynomial.{RootCounting, CoefficientsDiffer, PolynomialCoverFree};
ghost use Rattle.families.specs.Single.{SingleCoverFree};
ghost use Rattle.families.specs.Halves.{LimitsCounted, HalvesCoverFree};
ghost use Rattle.families.specs.Plane.{PlaneCoverFree};

pub mod any;
mod blocks;
pub mod choose;
pub mod family;
pub mod fields;
pub mod halves;
pub mod plane;
pub mod polynomial;
pub mod row;
pub mod single;

pub fn bounded_inside()
    ensures { BoundedInside }
{}

#[tactic(auto, using(crate::specs::Roots::root_counting))]
pub fn root_counting()
    ensures { RootCounting }
{}

#[tactic(auto, using(crate::specs::PolynomialLaw::coefficients_differ))]
pub fn coefficients_differ()
    ensures { CoefficientsDiffer }
{}

#[tactic(auto, using(crate::specs::PolynomialLaw::polynomial_cover_free))]
pub fn polynomial_cover_free()
    ensures { PolynomialCoverFree }
{}

#[tactic(auto, using(crate::specs::SingleLaw::single_cover_free))]
pub fn single_cover_free()
    ensures { SingleCoverFree }
{}

pub fn limits_counted()
    ensures { LimitsCounted }
{}

#[tactic(auto, using(crate::specs::HalvesLaw::halves_cover_free))]
pub fn halves_cover_free()
    ensures { HalvesCoverFree }
{}

#[tactic(auto, using(crate::specs::PlaneLaw::plane_cover_free))]
pub fn plane_cover_free()
    ensures { PlaneCoverFree }
{}

// The numbers modulo 5, 7, 11 and 13 keep the laws of a field.
#[tactic(auto, using(crate::specs::Primes::prime_fields))]
pub fn prime_fields()
    ensures { PrimeFields }
{}

// So do the bit polynomials modulo 1011 and 10011.
#[tactic(auto, using(crate::specs::Binary::binary_fields))]
pub fn binary_fields()
    ensures { BinaryFields }
{}
