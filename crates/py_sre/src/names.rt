//! The names of groups.

ghost use Rattle.std.specs.Prelude.{◌≡◌, [], ◌∷◌, ◌++◌, length, slice_get, option_map, OnOk, OnErr, IsOkUnless, Some};
ghost use Rattle.py_base.specs.declared.error.PyError.TheVariants.{NoMemory};
ghost use Rattle.py_sre.specs.Names.{put, name_at};

use indexmap::IndexMap;
use py_base::{PyError, PyResult};
use py_text::PyStr;
use std::alloc::Global;
use std::marker::Model;

/// The numbers of groups by their names, none of which is there twice, in the order in which the
/// names came. Contracts see the list of names and numbers.
#[derive(Drop)]
pub struct GroupIndex {
    groups: IndexMap<PyStr, usize>,
}

impl Model for GroupIndex {
    ghost use Rattle.std.specs.Prelude.{List};
    ghost use Rattle.py_sre.specs.Names.{Entry};

    ghost Value = { List Entry };

    ghost view = { λ index. index.groups.entries };
}

impl GroupIndex {
    /// No name. It takes no memory, and keeps the allocator for `insert`.
    pub fn new(alloc: Global) -> GroupIndex
        ensures { result ≡ [] }
    {
        GroupIndex {
            groups: IndexMap::new(alloc),
        }
    }

    /// Gives a name this number. A new name is last; one that is there keeps its place.
    #[tactic(auto, using(crate::proofs::NameLemmas::put_is))]
    pub fn insert(&mut self, name: PyStr, group: usize) -> PyResult<()>
        ensures ok { OnOk result (self.new ≡ put name group self.old) }
        ensures same { OnErr result (self.new ≡ self.old) }
        ensures err { IsOkUnless result NoMemory }
    {
        let Ok(_) = self.groups.insert(name, group) else {
            return Err(PyError::NoMemory);
        };
        Ok(())
    }

    /// How many names there are.
    pub fn len(&self) -> usize
        ensures { result ≡ length self.now }
    {
        self.groups.len()
    }

    /// The name at a place, from 0, and its number.
    pub fn entry(&self, i: usize) -> Option<(&PyStr, usize)>
        ensures { option_map (λ e. (e.0.now, e.1)) result ≡ slice_get self.now i }
    {
        match self.groups.as_slice().get_index(i) {
            Some((name, group)) => Some((name, *group)),
            None => None,
        }
    }
}

/// The names of groups by their numbers: item i is the name of group i, where it has one. Contracts
/// see the list of names.
#[derive(Drop)]
pub struct GroupNames {
    names: Vec<Option<PyStr>>,
}

impl Model for GroupNames {
    ghost use Rattle.std.specs.Prelude.{List, ℕ, Option};

    ghost Value = { List (Option (List ℕ)) };

    ghost view = { λ names. names.names.items };
}

impl GroupNames {
    /// No item. It takes no memory, and keeps the allocator for `push`.
    pub fn new(alloc: Global) -> GroupNames
        ensures { result ≡ [] }
    {
        GroupNames {
            names: Vec::new(alloc),
        }
    }

    /// Puts the name of the next group last, or that it has none.
    pub fn push(&mut self, name: Option<PyStr>) -> PyResult<()>
        ensures ok { OnOk result (self.new ≡ self.old ++ name ∷ []) }
        ensures same { OnErr result (self.new ≡ self.old) }
        ensures err { IsOkUnless result NoMemory }
    {
        let Ok(()) = self.names.push(name) else {
            return Err(PyError::NoMemory);
        };
        Ok(())
    }

    /// How many items there are.
    pub fn len(&self) -> usize
        ensures { result ≡ length self.now }
    {
        self.names.len()
    }

    /// The name of a group, where it has one.
    pub fn get(&self, i: usize) -> Option<&PyStr>
        ensures { option_map (λ name. name.now) result ≡ name_at i self.now }
    {
        let Some(name) = self.names.get(i) else {
            return None;
        };
        match name {
            Some(name) => Some(name),
            None => None,
        }
    }
}
