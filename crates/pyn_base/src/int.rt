// Integers of the supported range, which a contract sees as whole numbers.
ghost use Rattle.std.specs.Prelude.{◌≡◌, ◌≢◌, ℤ, pos, ◌+ℤ◌, ◌-ℤ◌, ◌*ℤ◌, int_lt, int_le};
ghost use Rattle.std.specs.Ordering.{int_eq};
ghost use Rattle.pyn_base.specs.Int.{IsInRange, in_range, floor_quotient, floor_rest, IsDivided};

use std::marker::Model;

/// An integer from `-(2^127 - 1)` to `2^127 - 1`. Python's integers have no end; this range is the
/// project's own, and a result outside of it is never wrapped.
#[derive(Clone, Copy, Debug, PartialEq, Eq)]
pub struct PyInt {
    value: i128,
}

impl Model for PyInt {
    ghost Value = { ℤ };

    ghost view = { λ n. n.value };

    ghost invariant = { λ n. IsInRange n.value };

    ghost inverse = { λ z. record { value = z } };
}

impl PyInt {
    /// The integer, unless it is the least `i128`.
    pub fn new(n: i128) -> Option<PyInt>
        ensures { result ≡ in_range n }
    {
        if n == i128::MIN {
            None
        } else {
            Some(PyInt { value: n })
        }
    }

    /// The integer as a number of Rust's, which is never the least `i128`.
    pub fn get(self) -> i128
        ensures { result ≡ self }
    {
        self.value
    }

    /// The sum, unless it lies outside the range.
    pub fn add(self, other: PyInt) -> Option<PyInt>
        ensures { result ≡ in_range (self +ℤ other) }
    {
        match self.value.checked_add(other.value) {
            Some(sum) => PyInt::new(sum),
            None => None,
        }
    }

    /// The difference, unless it lies outside the range.
    pub fn sub(self, other: PyInt) -> Option<PyInt>
        ensures { result ≡ in_range (self -ℤ other) }
    {
        match self.value.checked_sub(other.value) {
            Some(difference) => PyInt::new(difference),
            None => None,
        }
    }

    /// The product, unless it lies outside the range.
    pub fn mul(self, other: PyInt) -> Option<PyInt>
        ensures { result ≡ in_range (self *ℤ other) }
    {
        match self.value.checked_mul(other.value) {
            Some(product) => PyInt::new(product),
            None => None,
        }
    }

    /// The quotient, rounded down, as Python's `//`. It always lies in the range, since that leaves out
    /// the least `i128`, whose quotient by -1 would not.
    pub fn floor_div(self, by: PyInt) -> PyInt
        requires { by ≢ pos 0 }
        ensures value { result ≡ floor_quotient self by }
        ensures divides { IsDivided self by result (floor_rest self by) }
    {
        if by.value > 0 {
            PyInt {
                value: self.value.div_euclid(by.value),
            }
        } else {
            PyInt {
                value: (-self.value).div_euclid(-by.value),
            }
        }
    }

    /// What the rounded quotient leaves, as Python's `%`: 0, or a number with the divisor's sign.
    pub fn modulo(self, by: PyInt) -> PyInt
        requires { by ≢ pos 0 }
        ensures value { result ≡ floor_rest self by }
        ensures divides { IsDivided self by (floor_quotient self by) result }
    {
        if by.value > 0 {
            PyInt {
                value: self.value.rem_euclid(by.value),
            }
        } else {
            PyInt {
                value: -(-self.value).rem_euclid(-by.value),
            }
        }
    }

    /// Whether it is 0.
    pub fn is_zero(self) -> bool
        ensures { result ≡ int_eq self (pos 0) }
    {
        self.value == 0
    }

    /// Whether it is less than another, as Python's `<`.
    pub fn is_less(self, other: PyInt) -> bool
        ensures { result ≡ int_lt self other }
    {
        self.value < other.value
    }

    /// Whether it is another or less, as Python's `<=`.
    pub fn is_at_most(self, other: PyInt) -> bool
        ensures { result ≡ int_le self other }
    {
        self.value <= other.value
    }
}

impl From<u64> for PyInt {
    ghost from_gives = { λ n z. z ≡ pos n };

    fn from(n: u64) -> Self {
        PyInt { value: n as i128 }
    }
}
