//! The names of the groups of a pattern.

ghost use Rattle.std.specs.Prelude.{◌≡◌, ◌++◌, ◌∷◌, [], None, Some, slice_get, IfOk, MatchOption};
ghost use Rattle.re_tree.specs.Faults.{has_name};
ghost use Rattle.re_tree.specs.PlainText.{find_name};
ghost use Rattle.re_parse.specs.GroupNames.{number_in, number_under, HasAlso};

use indexmap::IndexMap;
use py_text::PyStr;
use std::alloc::{AllocError, Global};
use std::marker::Model;

#[derive(Debug, Drop)]
pub(crate) struct Named {
    name: PyStr,
    number: usize,
}

/// The names of groups with their numbers, in the order of the pattern. A look-up hashes the name
/// once.
#[derive(Drop)]
pub struct GroupNames {
    order: Vec<Named>,
    numbers: IndexMap<String, usize>,
}

impl Model for GroupNames {
    ghost use Rattle.re_tree.specs.PlainText.{Names};
    ghost use Rattle.re_parse.specs.GroupNames.{names_in, AreFirstNumbers};

    ghost Value = { Names };

    ghost view = { λ a. names_in a.order.items };

    ghost invariant = { λ a. AreFirstNumbers a.numbers.entries (names_in a.order.items) };
}

// The number that a map has for a name, where it has one.
fn number_of(numbers: &IndexMap<String, usize>, name: &PyStr) -> Option<usize>
    ensures { result ≡ number_under numbers.now.entries name.now }
{
    match numbers.get(name.as_str()) {
        None => None,
        Some(number) => Some(*number),
    }
}

// Puts the number of a name that is not there.
fn put_number(
    alloc: Global,
    numbers: IndexMap<String, usize>,
    name: &PyStr,
    number: usize,
) -> Result<IndexMap<String, usize>, AllocError>
    requires { number_under numbers.entries name.now ≡ None }
    ensures { IfOk result (λ longer. HasAlso name.now number numbers.entries longer.entries) }
{
    let mut longer = numbers;
    let key = String::from_str(alloc, name.as_str())?;
    match longer.insert(key, number) {
        Ok(_) => Ok(longer),
        Err(_) => Err(AllocError),
    }
}

// With the number of a name, where it has none before.
fn with_name(
    alloc: Global,
    numbers: IndexMap<String, usize>,
    name: &PyStr,
    number: usize,
) -> Result<IndexMap<String, usize>, AllocError>
    ensures { IfOk result (λ longer. HasAlso name.now number numbers.entries longer.entries) }
{
    match number_of(&numbers, name) {
        Some(_) => Ok(numbers),
        None => put_number(alloc, numbers, name, number),
    }
}

impl GroupNames {
    /// No name. It takes no memory.
    pub fn new(alloc: Global) -> GroupNames
        ensures { result ≡ [] }
    {
        GroupNames {
            order: Vec::new(alloc),
            numbers: IndexMap::new(alloc),
        }
    }

    // The number of the first group of a name, where there is one.
    fn number(&self, name: &PyStr) -> Option<usize>
        ensures { result ≡ number_in self.now name.now }
    {
        number_of(&self.numbers, name)
    }

    // Whether a group has this name.
    pub(crate) fn has(&self, name: &PyStr) -> bool
        ensures { result ≡ has_name self.now name.now }
    {
        match self.number(name) {
            None => false,
            Some(_) => true,
        }
    }

    /// The number of the first group of a name, or 0 where there is none.
    pub fn find(&self, name: &PyStr) -> usize
        ensures { result ≡ find_name self.now name.now }
    {
        match self.number(name) {
            None => 0,
            Some(number) => number,
        }
    }

    /// The name and the number at a place, from 0 on.
    #[tactic(auto, using(crate::proofs::GroupNameLemmas::names_none, crate::proofs::GroupNameLemmas::names_some))]
    pub fn get(&self, i: usize) -> Option<(&PyStr, usize)>
        ensures { MatchOption result (slice_get self.now i ≡ None)
            (λ named. slice_get self.now i ≡ Some (named.0.now, named.1)) }
    {
        match self.order.get(i) {
            None => None,
            Some(named) => Some((&named.name, named.number)),
        }
    }

    /// With one name more.
    #[tactic(auto, using(crate::proofs::GroupNameLemmas::names_push))]
    pub fn push(self, alloc: Global, name: PyStr, number: usize) -> Result<GroupNames, AllocError>
        ensures { IfOk result (λ names. names ≡ self ++ (name, number) ∷ []) }
    {
        let numbers = with_name(alloc, self.numbers, &name, number)?;
        let mut order = self.order;
        order.push(Named { name, number })?;
        Ok(GroupNames { order, numbers })
    }
}
