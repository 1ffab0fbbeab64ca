//! Operations on the bits of two's complement, which goes on for ever: "Bitwise Operations on
//! Integer Types" of the Python Library Reference.

ghost use Rattle.std.specs.Prelude.{◌≡◌, ℕ, ◌^◌, ℤ, pos, ◌&&◌, ◌||◌, not};
ghost use Rattle.std.specs.Prelude.{unsigned_abs, count_ones};
ghost use Rattle.py_int.specs.Bits.{bit};
ghost use Rattle.py_int.specs.Divide.{floor_mod};
ghost use Rattle.std.proofs.Math.Bool.{xor};
ghost use Rattle.py_int.specs.Bits.{IsBitLength};

use crate::number::PyInt;

impl PyInt {
    /// `self & other`.
    pub fn and(&self, other: PyInt) -> PyInt
        ensures { (k : ℕ) → bit result k ≡ (bit self.now k && bit other k) }
    {
        PyInt::from(self.as_i128() & other.as_i128())
    }

    /// `self | other`.
    pub fn or(&self, other: PyInt) -> PyInt
        ensures { (k : ℕ) → bit result k ≡ (bit self.now k || bit other k) }
    {
        PyInt::from(self.as_i128() | other.as_i128())
    }

    /// `self ^ other`.
    pub fn xor(&self, other: PyInt) -> PyInt
        ensures { (k : ℕ) → bit result k ≡ xor (bit self.now k) (bit other k) }
    {
        PyInt::from(self.as_i128() ^ other.as_i128())
    }

    /// `~self`.
    pub fn invert(&self) -> PyInt
        ensures { (k : ℕ) → bit result k ≡ not (bit self.now k) }
    {
        PyInt::from(!self.as_i128())
    }

    /// The integer modulo 2^32.
    pub fn as_u32_mask(&self) -> u32
        ensures { pos result ≡ floor_mod self.now (pos (2 ^ 32)) }
    {
        self.as_i128().rem_euclid(1 << 32) as u32
    }

    /// How many binary digits the absolute value has; 0 has none.
    pub fn bit_length(&self) -> u64
        ensures { IsBitLength (unsigned_abs self.now) result }
    {
        u64::from(128 - self.as_i128().unsigned_abs().leading_zeros())
    }

    /// How many binary digits of the absolute value are 1.
    pub fn bit_count(&self) -> u32
        ensures { result ≡ count_ones (unsigned_abs self.now) }
    {
        self.as_i128().unsigned_abs().count_ones()
    }
}
