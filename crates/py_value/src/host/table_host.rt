//! A host in memory.

ghost use Rattle.std.specs.Prelude.{◌≡◌, ◌≤◌, false, true};
ghost use Rattle.py_base.specs.Stream.Faults.{Rose};
ghost use Rattle.py_value.specs.Asking.{Tells};
ghost use Rattle.py_value.specs.HostSeen.{seen_of};
ghost use Rattle.py_value.specs.HostTable as spec;
ghost use Rattle.py_value.specs.HostTable.{AnswersCall};
ghost use Rattle.py_value.specs.Plain.{str, none};
ghost use Rattle.py_value.specs.ValueView.{plain_of};
ghost use Rattle.py_value.specs.declared.host.HostMethod.TheVariants.{GetAttr, GetItem, ToInt, ToBytes, ToBool, Len, Index, StrOf, ReprOf, FormatOf};

use crate::host::table::HostTable;
use crate::host::{Host, HostAnswer, HostMethod};
use crate::value::Value;
use py_text::PyStr;
use std::alloc::Global;
use std::marker::Model;

/// A host that answers from rows. Its calls but `has_getitem` are numbered from 1, and those with
/// the numbers in `fails` fail.
#[derive(Drop)]
pub struct TableHost {
    alloc: Global,
    rows: HostTable,
    fails: Vec<u64>,
    calls: u64,
    faults: u64,
}

impl Model for TableHost {
    ghost use Rattle.py_value.specs.HostTable.{InMemory, in_memory};
    ghost use Rattle.std.specs.Coded.{codes};
    ghost use Rattle.py_value.specs.contracts.value.Value as value_code;

    ghost Value = { InMemory };

    ghost coded = { Prim.hlevel (codes, value_code.the_row.coded) };

    ghost view = { λ host. in_memory host.rows host.fails.items host.calls host.faults };
}

impl TableHost {
    /// A host of which no call was made.
    pub fn new(alloc: Global, rows: HostTable, fails: Vec<u64>) -> TableHost
        ensures { result ≡ spec.in_memory rows fails.items 0 0 }
    {
        TableHost {
            alloc,
            rows,
            fails,
            calls: 0,
            faults: 0,
        }
    }

    // Counts a call, and says whether it fails.
    fn count_call(&mut self) -> bool
        ensures fails { result ≡ spec.call_fails self.old }
        ensures after { self.new ≡ spec.after_call self.old }
        ensures later { self.old.faults ≤ self.new.faults }
        ensures rose { result ≡ true → Rose self.old.faults self.new.faults }
    {
        self.calls = self.calls.saturating_add(1);
        let fails = self.calls < u64::MAX && self.fails.contains(&self.calls);
        if fails {
            self.faults = self.faults.saturating_add(1);
        }
        fails
    }

    // What the rows answer.
    fn answer(
        &self,
        handle: u64,
        method: HostMethod,
        key: &Value,
    ) -> Result<Option<Value>, HostAnswer>
        ensures { spec.IsAnswer false
            (spec.first_answer handle method (plain_of key.now) self.now.rows) result }
    {
        let Some(answer) = self.rows.answer(handle, method, key) else {
            return Ok(None);
        };
        match answer.try_clone(self.alloc) {
            Ok(answer) => Ok(Some(answer)),
            Err(_) => Err(HostAnswer::NoMemory),
        }
    }

    // One call.
    fn ask(
        &mut self,
        handle: u64,
        method: HostMethod,
        key: &Value,
    ) -> Result<Option<Value>, HostAnswer>
        ensures tells { Tells handle method (plain_of key.now)
            (seen_of self.old) (seen_of self.new) result }
        ensures call { AnswersCall handle method (plain_of key.now) self.old self.new result }
    {
        if self.count_call() {
            return Err(HostAnswer::Failed);
        }
        self.answer(handle, method, key)
    }

    // One call with a text as the key.
    fn ask_text(
        &mut self,
        handle: u64,
        method: HostMethod,
        key: &PyStr,
    ) -> Result<Option<Value>, HostAnswer>
        ensures tells { Tells handle method (str key.now)
            (seen_of self.old) (seen_of self.new) result }
        ensures call { AnswersCall handle method (str key.now) self.old self.new result }
    {
        if self.count_call() {
            return Err(HostAnswer::Failed);
        }
        match key.try_clone(self.alloc) {
            Ok(text) => self.answer(handle, method, &Value::Str(text)),
            Err(_) => Err(HostAnswer::NoMemory),
        }
    }
}

impl Host for TableHost {
    ghost use Rattle.py_value.specs.HostSeen.{seen_of};

    ghost seen = { seen_of };

    fn has_getitem(&self, handle: u64) -> bool {
        self.rows.has_items(handle)
    }

    fn get_attr(&mut self, handle: u64, name: &PyStr) -> Result<Option<Value>, HostAnswer>
        ensures tells { Tells handle GetAttr (str name.now)
            (seen_of self.old) (seen_of self.new) result }
        ensures call { AnswersCall handle GetAttr (str name.now) self.old self.new result }
    {
        self.ask_text(handle, HostMethod::GetAttr, name)
    }

    fn get_item(&mut self, handle: u64, key: &Value) -> Result<Option<Value>, HostAnswer>
        ensures tells { Tells handle GetItem (plain_of key.now)
            (seen_of self.old) (seen_of self.new) result }
        ensures call { AnswersCall handle GetItem (plain_of key.now) self.old self.new result }
    {
        self.ask(handle, HostMethod::GetItem, key)
    }

    fn to_int(&mut self, handle: u64) -> Result<Option<Value>, HostAnswer>
        ensures tells { Tells handle ToInt none (seen_of self.old) (seen_of self.new) result }
        ensures call { AnswersCall handle ToInt none self.old self.new result }
    {
        self.ask(handle, HostMethod::ToInt, &Value::None)
    }

    fn to_bytes(&mut self, handle: u64) -> Result<Option<Value>, HostAnswer>
        ensures tells { Tells handle ToBytes none (seen_of self.old) (seen_of self.new) result }
        ensures call { AnswersCall handle ToBytes none self.old self.new result }
    {
        self.ask(handle, HostMethod::ToBytes, &Value::None)
    }

    fn to_bool(&mut self, handle: u64) -> Result<Option<Value>, HostAnswer>
        ensures tells { Tells handle ToBool none (seen_of self.old) (seen_of self.new) result }
        ensures call { AnswersCall handle ToBool none self.old self.new result }
    {
        self.ask(handle, HostMethod::ToBool, &Value::None)
    }

    fn len(&mut self, handle: u64) -> Result<Option<Value>, HostAnswer>
        ensures tells { Tells handle Len none (seen_of self.old) (seen_of self.new) result }
        ensures call { AnswersCall handle Len none self.old self.new result }
    {
        self.ask(handle, HostMethod::Len, &Value::None)
    }

    fn index(&mut self, handle: u64) -> Result<Option<Value>, HostAnswer>
        ensures tells { Tells handle Index none (seen_of self.old) (seen_of self.new) result }
        ensures call { AnswersCall handle Index none self.old self.new result }
    {
        self.ask(handle, HostMethod::Index, &Value::None)
    }

    fn str_of(&mut self, handle: u64) -> Result<Option<Value>, HostAnswer>
        ensures tells { Tells handle StrOf none (seen_of self.old) (seen_of self.new) result }
        ensures call { AnswersCall handle StrOf none self.old self.new result }
    {
        self.ask(handle, HostMethod::StrOf, &Value::None)
    }

    fn repr_of(&mut self, handle: u64) -> Result<Option<Value>, HostAnswer>
        ensures tells { Tells handle ReprOf none (seen_of self.old) (seen_of self.new) result }
        ensures call { AnswersCall handle ReprOf none self.old self.new result }
    {
        self.ask(handle, HostMethod::ReprOf, &Value::None)
    }

    fn format_of(&mut self, handle: u64, spec: &PyStr) -> Result<Option<Value>, HostAnswer>
        ensures tells { Tells handle FormatOf (str spec.now)
            (seen_of self.old) (seen_of self.new) result }
        ensures call { AnswersCall handle FormatOf (str spec.now) self.old self.new result }
    {
        self.ask_text(handle, HostMethod::FormatOf, spec)
    }
}
