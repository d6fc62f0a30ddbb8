//! Fractions in lowest terms, with a positive denominator and parts of at most 2^127 - 1 in magnitude.
//!
//! Each operation says its answer twice: by facts, and as a function of its operands (`specs/Results.antt`), by which
//! other crates define what several operations in a row answer.
ghost use Rattle.std.specs.Prelude.{neg_ℤ, ◌≡◌, ◌<◌, ◌^◌, ◌*ℤ◌, ◌+ℤ◌, ◌<ℤ◌, ◌↔◌, pos, unsigned_abs, IsSome, IfSome, SomeIff};
ghost use Rattle.dcx_math.specs.Divisors.{IsCoprime};
ghost use Rattle.dcx_frac.specs.Fits.{Fits, IsRepresentable, signed};
ghost use Rattle.dcx_math.specs.Rational.{whole, ◌/ℚ◌};

use crate::divisor::gcd;
use crate::order::compare;
use std::cmp::Ordering;

/// The largest magnitude of a part, 2^127 - 1.
pub const LARGEST: u128 = 0x7fff_ffff_ffff_ffff_ffff_ffff_ffff_ffff;

/// An exact fraction `num / den`.
#[derive(Clone, Copy, Debug, PartialEq, Eq)]
pub struct Frac {
    num: i128,
    den: i128,
    ghost positive: { pos 0 <ℤ den },
    ghost lowest: { IsCoprime (unsigned_abs num) (unsigned_abs den) },
    ghost num_fits: { Fits num },
    ghost den_fits: { Fits den },
}

/// An operation that can pass 128 bits.
#[derive(Clone, Copy, Debug, PartialEq, Eq)]
pub enum Op {
    /// A sum.
    Add,
    /// A difference.
    Sub,
    /// A product.
    Mul,
    /// A quotient.
    Div,
    /// A least common multiple.
    Lcm,
}

/// An operation passes 128 bits: a number that it forms is above 2^127 - 1 in magnitude.
#[derive(Clone, Copy, Debug, PartialEq, Eq)]
pub struct Passes {
    /// The operation.
    pub op: Op,
    /// The left operand, as it was given.
    pub left: Frac,
    /// The right operand, as it was given.
    pub right: Frac,
}

/// That this operation on these operands passes 128 bits.
fn passing(op: Op, left: Frac, right: Frac) -> Passes
    ensures { result ≡ record { op = op; left = left; right = right } }
{
    Passes { op, left, right }
}

/// The number of this size and sign.
fn with_sign(is_negative: bool, size: u128) -> i128
    requires { size < 2 ^ 127 }
    ensures value { result ≡ signed is_negative size }
    ensures size { unsigned_abs result ≡ size }
{
    if is_negative {
        -(size as i128)
    } else {
        size as i128
    }
}

/// The number with its sign turned.
fn turned(num: i128) -> i128
    requires { Fits num }
    ensures value { result ≡ neg_ℤ num }
    ensures size { unsigned_abs result ≡ unsigned_abs num }
{
    -num
}

/// The product, or `None` where it passes `LARGEST`.
fn times(a: i128, size: u128) -> Option<i128>
    ensures { SomeIff result (Fits (a *ℤ pos size)) (a *ℤ pos size) }
{
    match a.unsigned_abs().checked_mul(size) {
        None => None,
        Some(product) => {
            if product > LARGEST {
                None
            } else {
                Some(with_sign(a < 0, product))
            }
        }
    }
}

/// The sum, or `None` where it passes `LARGEST`.
fn plus(a: i128, b: i128) -> Option<i128>
    ensures { SomeIff result (Fits (a +ℤ b)) (a +ℤ b) }
{
    match a.checked_add(b) {
        None => None,
        Some(sum) => { if sum == i128::MIN { None } else { Some(sum) } }
    }
}

/// The product of two numbers, or `None` where it passes `LARGEST`.
fn multiplied(a: i128, b: i128) -> Option<i128>
    ensures { SomeIff result (Fits (a *ℤ b)) (a *ℤ b) }
{
    match a.checked_mul(b) {
        None => None,
        Some(product) => {
            if product == i128::MIN {
                None
            } else {
                Some(product)
            }
        }
    }
}

/// The fraction with these parts, or `None` where one passes `LARGEST`.
fn from_parts(is_negative: bool, num: u128, den: u128) -> Option<Frac>
    requires coprime { IsCoprime num den }
    requires positive { 0 < den }
    ensures exists { IsSome result ↔ ((num < 2 ^ 127) × (den < 2 ^ 127)) }
    ensures num { IfSome result (λ f. f.num ≡ signed is_negative num) }
    ensures den { IfSome result (λ f. f.den ≡ pos den) }
{
    if num > LARGEST || den > LARGEST {
        return None;
    }
    Some(Frac {
        num: with_sign(is_negative, num),
        den: with_sign(false, den),
    })
}

impl Frac {
    ghost use Rattle.std.specs.Prelude.{◌≢◌, IsOk, IfOk, IfErr, ◌⊎◌, IsTrue};
    ghost use Rattle.dcx_math.specs.Rational.{◌+ℚ◌, ◌-ℚ◌, ◌*ℚ◌, neg_ℚ, inverse, ◌<ℚ◌};
    ghost use Rattle.std.specs.Ordering.{int_cmp};
    ghost use Rattle.dcx_frac.specs.Frac.{num_of, den_of, value};
    ghost use Rattle.dcx_frac.specs.Formed.{FormsSum, SumFits, DifferenceFits, ProductFits, QuotientFits};
    ghost use Rattle.dcx_frac.specs.Results.{sum_of, difference_of, product_of, quotient_of};

    /// `num / den` in lowest terms, or `None` where `den` is 0 or a part in lowest terms passes 2^127 - 1 in magnitude.
    pub fn of(num: i128, den: i128) -> Option<Frac>
        ensures exists { IsSome result ↔ ((den ≢ pos 0) × IsRepresentable (whole num /ℚ whole den)) }
        ensures value { IfSome result (λ f. value f ≡ whole num /ℚ whole den) }
    {
        if den == 0 {
            return None;
        }
        if den == 1 {
            return Frac::integer(num);
        }
        let n = num.unsigned_abs();
        let d = den.unsigned_abs();
        let g = gcd(n, d);
        from_parts((num < 0) != (den < 0), n / g, d / g)
    }

    /// The integer as a fraction, or `None` where it passes `LARGEST`.
    fn integer(num: i128) -> Option<Frac>
        ensures exists { IsSome result ↔ Fits num }
        ensures value { IfSome result (λ f. value f ≡ whole num) }
    {
        if num == i128::MIN {
            return None;
        }
        Some(Frac { num, den: 1 })
    }

    /// The number 0.
    pub fn zero() -> Frac
        ensures { value result ≡ whole (pos 0) }
    {
        Frac { num: 0, den: 1 }
    }

    /// The number 1.
    pub fn one() -> Frac
        ensures { value result ≡ whole (pos 1) }
    {
        Frac { num: 1, den: 1 }
    }

    /// The upper part.
    pub fn num(&self) -> i128
        ensures { result ≡ num_of self.now }
    {
        self.num
    }

    /// The lower part, at least 1.
    pub fn den(&self) -> i128
        ensures { result ≡ den_of self.now }
    {
        self.den
    }

    /// Whether the number is 0.
    pub fn is_zero(&self) -> bool
        ensures { IsTrue result ↔ (value self.now ≡ whole (pos 0)) }
    {
        self.num == 0
    }

    /// The exact sum, or what was added where a number formed passes 2^127 - 1.
    pub fn add(self, other: Frac) -> Result<Frac, Passes>
        ensures sum { IfOk result (λ f. value f ≡ value self +ℚ value other) }
        ensures fits { IsOk result ↔ SumFits self other }
        ensures told { IfErr result (λ p. p ≡ record { op = Op.Add; left = self; right = other }) }
        ensures answer { result ≡ sum_of self other }
    {
        self.sum(other).ok_or(passing(Op::Add, self, other))
    }

    /// The exact difference, or what was subtracted where a number formed passes 2^127 - 1.
    pub fn sub(self, other: Frac) -> Result<Frac, Passes>
        ensures difference { IfOk result (λ f. value f ≡ value self -ℚ value other) }
        ensures fits { IsOk result ↔ DifferenceFits self other }
        ensures told { IfErr result (λ p. p ≡ record { op = Op.Sub; left = self; right = other }) }
        ensures answer { result ≡ difference_of self other }
    {
        self.sum(other.neg()).ok_or(passing(Op::Sub, self, other))
    }

    /// The exact product, or what was multiplied where a number formed passes 2^127 - 1.
    pub fn mul(self, other: Frac) -> Result<Frac, Passes>
        ensures product { IfOk result (λ f. value f ≡ value self *ℚ value other) }
        ensures fits { IsOk result ↔ ProductFits self other }
        ensures told { IfErr result (λ p. p ≡ record { op = Op.Mul; left = self; right = other }) }
        ensures answer { result ≡ product_of self other }
    {
        self.product(other).ok_or(passing(Op::Mul, self, other))
    }

    /// The exact quotient, or what was divided where a number formed passes 2^127 - 1.
    pub fn div(self, other: Frac) -> Result<Frac, Passes>
        requires { value other ≢ whole (pos 0) }
        ensures quotient { IfOk result (λ f. value f ≡ value self /ℚ value other) }
        ensures fits { IsOk result ↔ QuotientFits self other }
        ensures told { IfErr result (λ p. p ≡ record { op = Op.Div; left = self; right = other }) }
        ensures answer { result ≡ quotient_of self other }
    {
        self.product(other.turned_over())
            .ok_or(passing(Op::Div, self, other))
    }

    /// The number with its sign turned.
    pub fn neg(self) -> Frac
        ensures { value result ≡ neg_ℚ (value self) }
    {
        Frac {
            num: turned(self.num),
            den: self.den,
        }
    }

    /// How the numbers compare, by repeated division: no product is formed.
    pub fn cmp_exact(&self, other: &Frac) -> Ordering
        ensures less { (result ≡ Ordering.Less) ↔ (value self.now <ℚ value other.now) }
        ensures equal { (result ≡ Ordering.Equal) ↔ (value self.now ≡ value other.now) }
        ensures greater { (result ≡ Ordering.Greater) ↔ (value other.now <ℚ value self.now) }
    {
        self.order(*other)
    }

    /// How the cross products compare, with no product formed.
    fn order(self, other: Frac) -> Ordering
        ensures { result ≡ int_cmp (self.num *ℤ other.den) (other.num *ℤ self.den) }
    {
        if self.den == other.den {
            return self.num.cmp(&other.num);
        }
        self.crossed(other)
    }

    /// The same, by repeated division.
    fn crossed(self, other: Frac) -> Ordering
        ensures { result ≡ int_cmp (self.num *ℤ other.den) (other.num *ℤ self.den) }
    {
        let b = self.den.unsigned_abs();
        let d = other.den.unsigned_abs();
        let size = self.num.unsigned_abs();
        let other_size = other.num.unsigned_abs();
        if self.num < 0 {
            if other.num < 0 {
                compare(other_size, d, size, b)
            } else {
                Ordering::Less
            }
        } else if other.num < 0 {
            Ordering::Greater
        } else {
            compare(size, b, other_size, d)
        }
    }

    /// The sum, or `None` where a number formed passes `LARGEST`. A zero operand forms none.
    fn sum(self, other: Frac) -> Option<Frac>
        ensures exists { IsSome result ↔ SumFits self other }
        ensures value { IfSome result (λ f. value f ≡ value self +ℚ value other) }
    {
        if self.num == 0 {
            return Some(other);
        }
        if other.num == 0 {
            return Some(self);
        }
        if self.den == 1 && other.den == 1 {
            return self.whole_sum(other);
        }
        self.formed_sum(other)
    }

    /// The sum of two integers, which has no denominators to look for.
    fn whole_sum(self, other: Frac) -> Option<Frac>
        requires left { self.den ≡ pos 1 }
        requires right { other.den ≡ pos 1 }
        ensures exists { IsSome result ↔ FormsSum self other }
        ensures value { IfSome result (λ f. value f ≡ value self +ℚ value other) }
    {
        match plus(self.num, other.num) {
            Some(num) => Some(Frac { num, den: 1 }),
            None => None,
        }
    }

    /// The sum, over the least common denominator and then in lowest terms.
    fn formed_sum(self, other: Frac) -> Option<Frac>
        ensures exists { IsSome result ↔ FormsSum self other }
        ensures value { IfSome result (λ f. value f ≡ value self +ℚ value other) }
    {
        let b = self.den.unsigned_abs();
        let d = other.den.unsigned_abs();
        let g = gcd(b, d);
        let left = times(self.num, d / g)?;
        let right = times(other.num, b / g)?;
        let sum = plus(left, right)?;
        let size = sum.unsigned_abs();
        let k = gcd(size, g);
        let den = (b / g).checked_mul(d / k)?;
        from_parts(sum < 0, size / k, den)
    }

    /// The product, or `None` where a part passes `LARGEST`.
    fn product(self, other: Frac) -> Option<Frac>
        ensures exists { IsSome result ↔ ProductFits self other }
        ensures value { IfSome result (λ f. value f ≡ value self *ℚ value other) }
    {
        if self.den == 1 && other.den == 1 {
            return self.whole_product(other);
        }
        self.formed_product(other)
    }

    /// The product of two integers, which has no denominators to look for.
    fn whole_product(self, other: Frac) -> Option<Frac>
        requires left { self.den ≡ pos 1 }
        requires right { other.den ≡ pos 1 }
        ensures exists { IsSome result ↔ ProductFits self other }
        ensures value { IfSome result (λ f. value f ≡ value self *ℚ value other) }
    {
        match multiplied(self.num, other.num) {
            Some(num) => Some(Frac { num, den: 1 }),
            None => None,
        }
    }

    /// The product, or `None` where a part passes `LARGEST` after the common divisors across are taken out.
    fn formed_product(self, other: Frac) -> Option<Frac>
        ensures exists { IsSome result ↔ ProductFits self other }
        ensures value { IfSome result (λ f. value f ≡ value self *ℚ value other) }
    {
        let a = self.num.unsigned_abs();
        let b = self.den.unsigned_abs();
        let c = other.num.unsigned_abs();
        let d = other.den.unsigned_abs();
        let g = gcd(a, d);
        let k = gcd(c, b);
        let num = (a / g).checked_mul(c / k)?;
        let den = (b / k).checked_mul(d / g)?;
        from_parts((self.num < 0) != (other.num < 0), num, den)
    }

    /// One divided by the number.
    fn turned_over(self) -> Frac
        requires { value self ≢ whole (pos 0) }
        ensures { value result ≡ inverse (value self) }
    {
        if self.num < 0 {
            return Frac {
                num: turned(self.den),
                den: turned(self.num),
            };
        }
        Frac {
            num: self.den,
            den: self.num,
        }
    }
}
