//! The hash of an integer.

ghost use Rattle.std.specs.Prelude.{◌≡◌};
ghost use Rattle.py_base.specs.Hash.{int_hash};

// 2^61 - 1, a prime.
const HASH_MODULUS: u128 = 2_305_843_009_213_693_951;

/// What `hash(n)` answers, by "Hashing of numeric types" of the Python Library Reference.
pub fn py_hash_int(n: i128) -> i64
    ensures { result ≡ int_hash n }
{
    let magnitude = (n.unsigned_abs() % HASH_MODULUS) as i64;
    let hash = if n < 0 { -magnitude } else { magnitude };
    if hash == -1 { -2 } else { hash }
}
