//! Hashes of texts.

ghost use Rattle.std.specs.Prelude.{◌≡◌};
ghost use Rattle.py_text.specs.Hash.{text_hash};

use crate::text::PyStr;
use std::hash::{Hash, Hasher};

// What FNV-1a of 64 bits begins with.
const FNV_OFFSET_BASIS: u64 = 14_695_981_039_346_656_037;

// What it multiplies by at each byte.
const FNV_PRIME: u64 = 1_099_511_628_211;

impl Hash for PyStr {
    ghost use Rattle.std.specs.Prelude.{encode_utf8_all};
    ghost use Rattle.std.specs.Hash as fed;
    ghost use Rattle.py_text.specs.Hash.{alike_texts};

    ghost hash_input = { λ text. fed.str (encode_utf8_all text) };

    ghost respects_eq = { alike_texts };

    fn hash<H: Hasher>(&self, state: &mut H) {
        self.as_str().hash(state);
    }
}

impl PyStr {
    /// A hash of the text under a seed, by FNV-1a over its UTF-8 bytes; -2 in the place of -1, as
    /// for integers.
    pub fn py_hash(&self, seed: u64) -> i64
        ensures { result ≡ text_hash seed self.now }
    {
        let mut hash = seed ^ FNV_OFFSET_BASIS;
        for byte in self.as_str().as_bytes() {
            hash = (hash ^ u64::from(*byte)).wrapping_mul(FNV_PRIME);
        }
        let hash = hash.cast_signed();
        if hash == -1 { -2 } else { hash }
    }
}
