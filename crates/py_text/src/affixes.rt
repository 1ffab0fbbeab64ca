//! What is left of a text without a prefix or a suffix.

ghost use Rattle.std.specs.Prelude.{◌≡◌, chars};
ghost use Rattle.py_text.specs.Affixes.{without_prefix, without_suffix};

use crate::text::PyStr;

impl PyStr {
    /// The text after the prefix, borrowed; the whole text where it does not begin with it. (Python
    /// Library Reference, String Methods, `str.removeprefix`.)
    pub fn removeprefix(&self, pref: &PyStr) -> &str
        ensures { chars result.now ≡ without_prefix pref.now self.now }
    {
        let text = self.as_str();
        match text.strip_prefix(pref.as_str()) {
            Some(rest) => rest,
            None => text,
        }
    }

    /// The text before the suffix, borrowed; the whole text where it does not end with it. (Python
    /// Library Reference, String Methods, `str.removesuffix`.)
    pub fn removesuffix(&self, suffix: &PyStr) -> &str
        ensures { chars result.now ≡ without_suffix suffix.now self.now }
    {
        let text = self.as_str();
        match text.strip_suffix(suffix.as_str()) {
            Some(rest) => rest,
            None => text,
        }
    }
}
