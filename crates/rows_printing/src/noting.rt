//! A host that keeps its questions, and what it is asked.

ghost use Rattle.std.specs.Prelude.{◌≡◌, None, Some, map};
ghost use Rattle.py_value.specs.Asking.{Tells, question};
ghost use Rattle.py_value.specs.Plain.{str};
ghost use Rattle.py_value.specs.ValueView.{plain_of};

use crate::made::{int, text};
use py_base::{PyError, PyResult};
use py_text::PyStr;
use py_value::{Host, HostAnswer, HostMethod, Value, ValueList, get_attr, get_item, str_of};
use std::alloc::Global;

#[derive(Drop)]
struct Note {
    handle: u64,
    method: HostMethod,
    key: Value,
}

/// A host whose every answer is None. Each handle has items.
#[derive(Drop)]
struct Noting {
    alloc: Global,
    notes: Vec<Note>,
}

impl Noting {
    fn note(
        &mut self,
        handle: u64,
        method: HostMethod,
        key: Value,
    ) -> Result<Option<Value>, HostAnswer>
        ensures { Tells handle method (plain_of key)
            (⟦<Noting as Host>⟧.seen self.old) (⟦<Noting as Host>⟧.seen self.new) result }
    {
        match self.notes.push(Note {
            handle,
            method,
            key,
        }) {
            Ok(()) => Ok(None),
            Err(_) => Err(HostAnswer::NoMemory),
        }
    }

    fn note_text(
        &mut self,
        handle: u64,
        method: HostMethod,
        key: &PyStr,
    ) -> Result<Option<Value>, HostAnswer>
        ensures { Tells handle method (str key.now)
            (⟦<Noting as Host>⟧.seen self.old) (⟦<Noting as Host>⟧.seen self.new) result }
    {
        match key.try_clone(self.alloc) {
            Ok(key) => self.note(handle, method, Value::Str(key)),
            Err(_) => Err(HostAnswer::NoMemory),
        }
    }
}

impl Host for Noting {
    ghost use Rattle.std.specs.Prelude.{None, Some, map, true};
    ghost use Rattle.py_value.specs.Asking.{question};
    ghost use Rattle.py_value.specs.ValueView.{plain_of};

    ghost seen = { λ host. record {
      table = None;
      faults = 0;
      asked = Some (map (λ n. question n.handle n.method (plain_of n.key)) host.notes.items);
      runs_out = true;
    } };

    fn has_getitem(&self, _handle: u64) -> bool {
        true
    }

    fn get_attr(&mut self, handle: u64, name: &PyStr) -> Result<Option<Value>, HostAnswer> {
        self.note_text(handle, HostMethod::GetAttr, name)
    }

    fn get_item(&mut self, handle: u64, key: &Value) -> Result<Option<Value>, HostAnswer> {
        match key.try_clone(self.alloc) {
            Ok(key) => self.note(handle, HostMethod::GetItem, key),
            Err(_) => Err(HostAnswer::NoMemory),
        }
    }

    fn to_int(&mut self, handle: u64) -> Result<Option<Value>, HostAnswer> {
        self.note(handle, HostMethod::ToInt, Value::None)
    }

    fn to_bytes(&mut self, handle: u64) -> Result<Option<Value>, HostAnswer> {
        self.note(handle, HostMethod::ToBytes, Value::None)
    }

    fn to_bool(&mut self, handle: u64) -> Result<Option<Value>, HostAnswer> {
        self.note(handle, HostMethod::ToBool, Value::None)
    }

    fn len(&mut self, handle: u64) -> Result<Option<Value>, HostAnswer> {
        self.note(handle, HostMethod::Len, Value::None)
    }

    fn index(&mut self, handle: u64) -> Result<Option<Value>, HostAnswer> {
        self.note(handle, HostMethod::Index, Value::None)
    }

    fn str_of(&mut self, handle: u64) -> Result<Option<Value>, HostAnswer> {
        self.note(handle, HostMethod::StrOf, Value::None)
    }

    fn repr_of(&mut self, handle: u64) -> Result<Option<Value>, HostAnswer> {
        self.note(handle, HostMethod::ReprOf, Value::None)
    }

    fn format_of(&mut self, handle: u64, spec: &PyStr) -> Result<Option<Value>, HostAnswer> {
        self.note_text(handle, HostMethod::FormatOf, spec)
    }
}

fn noting_host(alloc: Global) -> Noting {
    let notes = Vec::new(alloc);
    Noting { alloc, notes }
}

// The handle and the method of a question, or 0 where there are fewer.
fn question_at(host: &Noting, i: usize) -> (u64, HostMethod) {
    match host.notes.get(i) {
        Some(note) => (note.handle, note.method),
        None => (0, HostMethod::Len),
    }
}

// The list of the handles 1 and 2.
fn two_handles(alloc: Global) -> PyResult<Value> {
    let mut list = ValueList::new(alloc);
    list.push(Value::Handle(1))?;
    list.push(Value::Handle(2))?;
    Ok(Value::List(list))
}

#[test]
fn a_printed_list(rt: HostRuntime) -> Result<(), PyError> {
    let alloc = rt.alloc();
    let mut host = noting_host(alloc);
    let printed = str_of(alloc, &mut host, &two_handles(alloc)?)?;
    assert_eq!(rt; printed.as_str(), "[<object 1>, <object 2>]");
    let asked = [0, 1].map(|i| question_at(&host, i));
    let is = [1, 2].map(|handle| (handle, HostMethod::ReprOf));
    assert_eq!(rt; (host.notes.len(), asked), (2, is));
    Ok(())
}

#[test]
fn a_printed_handle(rt: HostRuntime) -> Result<(), PyError> {
    let alloc = rt.alloc();
    let mut host = noting_host(alloc);
    str_of(alloc, &mut host, &Value::Handle(1))?;
    let asked = [0, 1].map(|i| question_at(&host, i).1);
    let is = [HostMethod::StrOf, HostMethod::ReprOf];
    assert_eq!(rt; (host.notes.len(), asked), (2, is));
    Ok(())
}

#[test]
fn an_item_and_an_attribute(rt: HostRuntime) -> Result<(), PyError> {
    let alloc = rt.alloc();
    let mut host = noting_host(alloc);
    let name = PyStr::copy_of(alloc, "a")?;
    let item = get_item(alloc, &mut host, &Value::Handle(1), &int(5));
    let attribute = get_attr(alloc, &mut host, &Value::Handle(1), &name);
    assert!(rt;
        matches!(
            (item, attribute),
            (Err(PyError::Key(_)), Err(PyError::NoAttribute(_)))
        )
    );
    let asked = [0, 1].map(|i| question_at(&host, i).1);
    let is = [HostMethod::GetItem, HostMethod::GetAttr];
    assert_eq!(rt; (host.notes.len(), asked), (2, is));
    Ok(())
}

#[test]
fn values_without_handles(rt: HostRuntime) -> Result<(), PyError> {
    let alloc = rt.alloc();
    let mut host = noting_host(alloc);
    str_of(alloc, &mut host, &text(alloc, "a")?)?;
    get_item(alloc, &mut host, &text(alloc, "a")?, &int(0))?;
    assert_eq!(rt; host.notes.len(), 0);
    Ok(())
}
