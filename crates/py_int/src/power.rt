//! Powers: `**` of "Numeric Types" and `pow` of "Built-in Functions" of the Python Library
//! Reference.

ghost use Rattle.std.specs.Prelude.{◌≡◌, ◌≢◌, ◌≤◌, ℤ, pos, ◌<ℤ◌, ◌≤ℤ◌, IfSome, IfNone, IfOk, IfErr, Err, unsigned_abs};
ghost use Rattle.py_base.specs.declared.error.PyError.TheVariants.{NotCarried, NotInvertible};
ghost use Rattle.py_base.specs.declared.error.causes.CarryKind.TheVariants.{NegativePower};
ghost use Rattle.py_int.specs.Divide.{floor_mod};
ghost use Rattle.py_int.specs.Power.{power, IsInverse, IsInversePower, IsModularPower, IsPower};

use crate::arithmetic::carry;
use crate::inverse::inverse_under;
use crate::modular::pow_under;
use crate::number::{PyInt, VALUE_BITS};
use crate::residue::{magnitude_of, rest_by, signed_rest};
use py_base::{CarryKind, PyError, PyResult};

// The power of -1, 0 or 1.
fn unit_power(value: i128, exp: u128) -> PyInt
    requires { unsigned_abs value ≤ 1 }
    ensures { result ≡ power value exp }
{
    if exp == 0 {
        PyInt::from(1i128)
    } else if value >= 0 {
        PyInt::from(value)
    } else if exp % 2 == 0 {
        PyInt::from(1i128)
    } else {
        PyInt::from(-1i128)
    }
}

// The remainder of the power, for an exponent of 0 or more.
fn power_under(base: PyInt, exp: PyInt, modulus: PyInt) -> PyInt
    requires { modulus ≢ pos 0 }
    ensures { result ≡ floor_mod (power base (unsigned_abs exp)) modulus }
{
    let rest = pow_under(
        rest_by(base, modulus),
        magnitude_of(exp),
        magnitude_of(modulus),
    );
    signed_rest(rest, modulus)
}

// The remainder of the power of the inverse, where there is one.
fn inverse_power_under(base: PyInt, exp: PyInt, modulus: PyInt) -> PyResult<PyInt>
    requires { modulus ≢ pos 0 }
    ensures ok { IfOk result (λ p. IsInversePower modulus base (unsigned_abs exp) p) }
    ensures err { IfErr result (λ e. (e ≡ NotInvertible) × ((i : ℤ) → ¬ IsInverse modulus base i)) }
{
    match inverse_under(rest_by(base, modulus), magnitude_of(modulus)) {
        Some(inverse) => {
            let rest = pow_under(inverse, magnitude_of(exp), magnitude_of(modulus));
            Ok(signed_rest(rest, modulus))
        }
        None => Err(PyError::NotInvertible),
    }
}

impl PyInt {
    /// `pow(self, exp, modulus)`, as `modpow`; without a modulus `self ** exp`, or `NotCarried`
    /// where `exp` is negative.
    pub fn pow(&self, exp: PyInt, modulus: Option<PyInt>) -> PyResult<PyInt>
        ensures negative { IfNone modulus (exp <ℤ pos 0 → result ≡ Err (NotCarried NegativePower)) }
        ensures value { IfNone modulus (IsPower self.now exp result) }
        ensures modular { IfSome modulus (λ m. IsModularPower self.now exp m result) }
    {
        match modulus {
            Some(modulus) => self.modpow(exp, modulus),
            None => exp.rpow(*self),
        }
    }

    /// `base ** self`.
    pub fn rpow(&self, base: PyInt) -> PyResult<PyInt>
        ensures negative { self.now <ℤ pos 0 → result ≡ Err (NotCarried NegativePower) }
        ensures value { IsPower base self.now result }
    {
        let exp = self.as_i128();
        let value = base.as_i128();
        if exp < 0 {
            Err(PyError::NotCarried(CarryKind::NegativePower))
        } else if value.unsigned_abs() <= 1 {
            Ok(unit_power(value, exp as u128))
        } else if exp > VALUE_BITS {
            Err(PyError::IntTooWide)
        } else {
            carry(value.checked_pow(exp as u32))
        }
    }

    /// `pow(self, exp, modulus)`: `ModulusZero` where the modulus is 0; the power of the inverse
    /// where `exp` is negative, or `NotInvertible`. Its products are never too wide.
    pub fn modpow(&self, exp: PyInt, modulus: PyInt) -> PyResult<PyInt>
        ensures { IsModularPower self.now exp modulus result }
    {
        if modulus.as_i128() == 0 {
            return Err(PyError::ModulusZero);
        }
        if exp.as_i128() >= 0 {
            Ok(power_under(*self, exp, modulus))
        } else {
            inverse_power_under(*self, exp, modulus)
        }
    }
}
