//! The flags of a pattern, and the numbers of the format of codes.

ghost use Rattle.std.specs.Prelude.{⊤, ◌≡◌, ◌+◌, [], ◌∷◌, codes, ℤ, pos, ◌≤ℤ◌, ◌↔◌, ◌⊎◌, IsTrue};
ghost use Rattle.std.specs.Int.RustNames.{bit_and};
ghost use Rattle.py_sre.specs.Flags.{known_flags, is_letter};

use bitflags::{Flag, Flags, bitflag_items};

/// The number of the format of codes.
pub const MAGIC: usize = 1;

/// How many bytes a code word has.
pub const CODESIZE: usize = 4;

/// The greatest number of a repeat, which means no limit.
pub const MAXREPEAT: usize = 4_294_967_295;

/// The most groups that a pattern has.
pub const MAXGROUPS: usize = 65_535;

/// The flags of a pattern.
#[derive(Clone, Copy, PartialEq, Eq, Debug, Drop)]
pub struct SreFlag(u16);

bitflag_items! {
    impl SreFlag: u16 {
        const TEMPLATE = 1;
        const IGNORECASE = 2;
        const LOCALE = 4;
        const MULTILINE = 8;
        const DOTALL = 16;
        const UNICODE = 32;
        const VERBOSE = 64;
        const DEBUG = 128;
        const ASCII = 256;
    }
}

impl Flags for SreFlag {
    type Bits = u16;

    ghost exact = { ⊤ };

    ghost table = { (codes "TEMPLATE", 1) ∷ (codes "IGNORECASE", 2) ∷ (codes "LOCALE", 4)
        ∷ (codes "MULTILINE", 8) ∷ (codes "DOTALL", 16) ∷ (codes "UNICODE", 32)
        ∷ (codes "VERBOSE", 64) ∷ (codes "DEBUG", 128) ∷ (codes "ASCII", 256) ∷ [] };

    ghost set_of = { λ flags. flags.0 };

    fn flags<'a>() -> &'a [Flag<SreFlag>] {
        SreFlag::FLAGS
    }

    fn bits(&self) -> u16 {
        self.0
    }

    fn from_bits_retain(bits: u16) -> SreFlag {
        SreFlag(bits)
    }
}

// The bits of all flags.
const ALL_FLAGS: u16 = 0x1FF;

/// The bits of flags that there are.
pub(crate) fn cut_to_known(flags: u16) -> u16
    ensures { result ≡ known_flags flags }
{
    flags & ALL_FLAGS
}

/// How many bytes a code word has.
pub fn getcodesize() -> usize
    ensures { result ≡ 4 }
{
    CODESIZE
}

/// Whether the code point is an ASCII letter.
pub fn ascii_iscased(ch: i32) -> bool
    ensures { result ≡ is_letter ch }
{
    match u8::try_from(ch) {
        Ok(byte) => byte.is_ascii_alphabetic(),
        Err(_) => false,
    }
}
