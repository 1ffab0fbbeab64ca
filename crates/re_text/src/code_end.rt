//! The end of a code, before which more words are put.

ghost use Rattle.std.specs.Prelude.{◌≡◌, ◌+◌, ◌-◌, ◌≤◌, ◌∷◌, [], length, OnOk};

use std::alloc::{AllocError, Global};
use std::marker::Model;

/// The last words of a code. A code is written from its last word to its first, so that each skip
/// is known when it is written.
#[derive(Debug, Drop)]
pub(crate) struct CodeEnd {
    reversed: Vec<u32>,
}

impl Model for CodeEnd {
    ghost use Rattle.std.specs.Prelude.{List, ℕ, reverse};

    ghost Value = { List ℕ };

    ghost view = { λ c. reverse c.reversed.items };
}

impl CodeEnd {
    /// No words.
    pub(crate) fn new(alloc: Global) -> CodeEnd
        ensures { result ≡ [] }
    {
        CodeEnd {
            reversed: Vec::new(alloc),
        }
    }

    /// How many words there are.
    pub(crate) fn len(&self) -> usize
        ensures { result ≡ length self.now }
    {
        self.reversed.len()
    }

    /// Puts a word before the others.
    pub(crate) fn put(&mut self, word: u32) -> Result<(), AllocError>
        ensures { OnOk result (self.new ≡ word ∷ self.old) }
    {
        self.reversed.push(word)?;
        Ok(())
    }

    /// Puts a number before the others. A number that is no word is out of memory: a code with so
    /// many words has no place in it.
    pub(crate) fn put_number(&mut self, number: usize) -> Result<(), AllocError>
        ensures { OnOk result (self.new ≡ number ∷ self.old) }
    {
        match u32::try_from(number) {
            Err(_) => Err(AllocError),
            Ok(word) => self.put(word),
        }
    }

    /// Puts how many words were put since there were `before`, and so many more.
    pub(crate) fn put_skip(&mut self, before: usize, more: usize) -> Result<(), AllocError>
        requires { before ≤ length self.old }
        ensures { OnOk result (self.new ≡ (length self.old - before + more) ∷ self.old) }
    {
        match (self.len() - before).checked_add(more) {
            None => Err(AllocError),
            Some(skip) => self.put_number(skip),
        }
    }

    /// All words, from the first one on.
    pub(crate) fn into_words(self) -> Vec<u32>
        ensures { result.items ≡ self }
    {
        let mut words = self.reversed;
        words.reverse();
        words
    }
}
