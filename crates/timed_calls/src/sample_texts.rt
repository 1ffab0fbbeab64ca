//! The texts that calls are made on: one block of a hundred code points, repeated.

ghost use Rattle.std.specs.Prelude.{◌≡◌, ◌+◌, ◌-◌, ◌/◌, ◌^◌, ◌<◌, ◌≤◌, length, take, drop, chars, IfOk};
ghost use Rattle.py_text.specs.Sums.{copies};

use py_base::PyResult;
use py_text::PyStr;
use std::alloc::Global;

/// The words that a text is made of.
#[derive(Clone, Copy, Debug, PartialEq, Eq)]
pub enum Language {
    Ascii,
    French,
}

impl Language {
    /// The language of a name.
    pub fn of_name(name: &str) -> Option<Language> {
        match name {
            "ascii" => Some(Language::Ascii),
            "french" => Some(Language::French),
            _ => None,
        }
    }

    // A hundred code points, in which `word` occurs once.
    fn block(self) -> &'static str
        ensures { 0 < length result.now }
    {
        match self {
            Language::Ascii => {
                "the quiet river runs past seven old houses while the marker of the town stands in the rain and then "
            }
            Language::French => {
                "le garçon a mangé à la cantine, près de la façade où l'on a placé des fenêtres déjà très âgées, ici "
            }
        }
    }

    /// A word that occurs once in each hundred code points.
    pub fn word(self) -> &'static str {
        match self {
            Language::Ascii => "marker",
            Language::French => "façade",
        }
    }

    /// What that word is replaced by.
    pub fn other_word(self) -> &'static str {
        match self {
            Language::Ascii => "signpost",
            Language::French => "devanture",
        }
    }

    /// A word that occurs only at the end.
    pub fn last_word(self) -> &'static str {
        match self {
            Language::Ascii => "finally",
            Language::French => "dernière",
        }
    }
}

// The first `size` code points of the repeated block.
fn filled(alloc: Global, block: &str, size: usize) -> PyResult<PyStr>
    requires some { 0 < length block.now }
    requires bound { size < 2 ^ 32 }
    ensures text { let block = chars block.now in
        IfOk result (λ text. text ≡ take size (copies (size / length block + 1) block)) }
    ensures size { IfOk result (λ text. length text ≡ size) }
{
    let block = PyStr::copy_of(alloc, block)?;
    let count = size / block.char_len() + 1;
    let whole = block.mul(alloc, count as isize)?;
    whole.do_slice(alloc, 0..size)
}

/// A text of `size` code points.
pub fn text_of(alloc: Global, language: Language, size: u32) -> PyResult<PyStr>
    ensures { IfOk result (λ text. length text ≡ size) }
{
    filled(alloc, language.block(), size as usize)
}

// The repeated block with `last` at its end, `size` code points in all.
fn ended(alloc: Global, block: &str, last: &PyStr, size: usize) -> PyResult<PyStr>
    requires some { 0 < length block.now }
    requires bound { size < 2 ^ 32 }
    ensures size { IfOk result (λ text. length text ≡ size) }
    ensures end { let rest = size - length last.now in
        length last.now ≤ size → IfOk result (λ text. drop rest text ≡ last.now) }
{
    let words = filled(alloc, block, size.saturating_sub(last.char_len()))?;
    let whole = words.add(alloc, last)?;
    whole.do_slice(alloc, 0..size)
}

/// A text of `size` code points with the last word at its end, or with as much of that word as there
/// is room for.
pub fn text_with_end(alloc: Global, language: Language, size: u32) -> PyResult<PyStr>
    ensures { IfOk result (λ text. length text ≡ size) }
{
    let last = PyStr::copy_of(alloc, language.last_word())?;
    ended(alloc, language.block(), &last, size as usize)
}
