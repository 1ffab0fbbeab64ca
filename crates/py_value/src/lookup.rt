//! The items and attributes of values: `obj[key]` and `obj.name` of the Python Language Reference,
//! "Subscriptions" and "Attribute references".

ghost use Rattle.std.specs.Prelude.{◌≡◌, true, is_some, Ok, Err};
ghost use Rattle.std.specs.Result.{is_ok};
ghost use Rattle.py_value.specs.Asking.{Answers, Meets, silent};
ghost use Rattle.py_value.specs.Lookup as spec;
ghost use Rattle.py_value.specs.Dict.{lookup};
ghost use Rattle.py_value.specs.Plain.{handle as handle_of};
ghost use Rattle.py_value.specs.ValueView.{plain_of, plainly};

use crate::host::{Host, HostAnswer};
use crate::value::{DictKey, PyDict, Value, ValueList};
use py_base::{BaseBytes, BaseText, ClassName, KeyName, PyError, PyResult};
use py_int::{PyBool, PyInt};
use py_text::{PyBytes, PyStr};
use std::alloc::Global;

/// The number that a value is as an index.
pub(crate) fn index_of(key: &Value) -> PyResult<i128>
    ensures { result ≡ spec.index_of (plain_of key.now) }
{
    match key.as_integer() {
        Some(number) => Ok(number.as_i128()),
        None => Err(PyError::Downcast(ClassName::Int, key.class())),
    }
}

// The key that a value is.
fn key_of_value(alloc: Global, key: &Value) -> PyResult<DictKey>
    ensures key { Meets (spec.key_of_value (plain_of key.now)) result }
    ensures free { result ≡ Err PyError.NoMemory → is_some (spec.key_of (plain_of key.now)) ≡ true }
{
    match key {
        Value::Bool(value) => Ok(DictKey::Int(PyBool::new(*value).as_int())),
        Value::Int(number) => Ok(DictKey::Int(*number)),
        Value::Str(text) => Ok(DictKey::Str(text.try_clone(alloc)?)),
        Value::Bytes(bytes) => Ok(DictKey::Bytes(bytes.try_clone(alloc)?)),
        _ => Err(PyError::Downcast(ClassName::Str, key.class())),
    }
}

// How an error names a key.
fn name_of(alloc: Global, key: &DictKey) -> PyResult<KeyName>
    ensures { Meets (Ok (spec.name_of key.now)) result }
{
    match key {
        DictKey::Int(number) => Ok(KeyName::Int(number.as_i128())),
        DictKey::Str(text) => Ok(KeyName::Text(BaseText::copy_of(alloc, text.as_str())?)),
        DictKey::Bytes(bytes) => Ok(KeyName::Bytes(BaseBytes::copy_of(alloc, bytes.as_bytes())?)),
    }
}

// The place in `len` items that an index means, where there is one.
fn place_in(len: usize, index: i128) -> Option<usize>
    ensures { result ≡ spec.place_in len index }
{
    let len = len as i128;
    let place = if index < 0 { index + len } else { index };
    if 0 <= place && place < len {
        Some(place as usize)
    } else {
        None
    }
}

fn list_item(alloc: Global, list: &ValueList, index: i128) -> PyResult<Value>
    ensures item { Meets (spec.list_item list.now index) (plainly result) }
    ensures free { result ≡ Err PyError.NoMemory
        → spec.takes_memory (spec.list_item list.now index) ≡ true }
{
    let Some(place) = place_in(list.len(), index) else {
        return Err(PyError::TupleIndex);
    };
    match list.get(place) {
        Some(value) => value.try_clone(alloc),
        None => Err(PyError::TupleIndex),
    }
}

fn bytes_item(bytes: &PyBytes, index: i128) -> PyResult<Value>
    ensures { plainly result ≡ spec.bytes_item bytes.now index }
{
    let bytes = bytes.as_bytes();
    let Some(place) = place_in(bytes.len(), index) else {
        return Err(PyError::TupleIndex);
    };
    match bytes.get(place) {
        Some(byte) => Ok(Value::Int(PyInt::from(i128::from(*byte)))),
        None => Err(PyError::TupleIndex),
    }
}

/// The text of the character at an index.
pub(crate) fn char_at(alloc: Global, text: &PyStr, index: i128) -> PyResult<PyStr>
    ensures item { Meets (spec.char_at text.now (Ok index)) result }
    ensures free { result ≡ Err PyError.NoMemory → is_ok (spec.char_at text.now (Ok index)) ≡ true }
{
    let c = text.getitem_by_index(index)?;
    Ok(PyStr::from_char(alloc, c)?)
}

fn text_item(alloc: Global, text: &PyStr, index: i128) -> PyResult<Value>
    ensures item { Meets (spec.text_item text.now index) (plainly result) }
    ensures free { result ≡ Err PyError.NoMemory
        → spec.takes_memory (spec.text_item text.now index) ≡ true }
{
    Ok(Value::Str(char_at(alloc, text, index)?))
}

fn dict_item(alloc: Global, dict: &PyDict, key: &DictKey) -> PyResult<Value>
    ensures item { Meets (spec.found_under key.now (lookup key.now dict.now)) (plainly result) }
    ensures free { result ≡ Err PyError.NoMemory
        → spec.takes_memory (spec.found_under key.now (lookup key.now dict.now)) ≡ true }
{
    match dict.get(key) {
        Some(value) => value.try_clone(alloc),
        None => Err(PyError::Key(name_of(alloc, key)?)),
    }
}

// Whether the value is a key.
fn is_key(key: &Value) -> bool
    ensures { result ≡ is_some (spec.key_of (plain_of key.now)) }
{
    match key {
        Value::Bool(_) | Value::Int(_) | Value::Str(_) | Value::Bytes(_) => true,
        _ => false,
    }
}

// The error for a key that is not there.
fn missing(alloc: Global, key: &Value) -> PyResult<Value>
    ensures { Meets (spec.missing (spec.key_of_value (plain_of key.now))) (plainly result) }
{
    let name = name_of(alloc, &key_of_value(alloc, key)?)?;
    Err(PyError::Key(name))
}

fn handle_item<H: Host>(alloc: Global, host: &mut H, handle: u64, key: &Value) -> PyResult<Value>
    ensures answers { Answers (spec.item (handle_of handle) (plain_of key.now))
        (H.seen host.old) (H.seen host.new) (plainly result) }
    ensures free { result ≡ Err PyError.NoMemory → spec.ItemRanOut
        (handle_of handle) (plain_of key.now) (H.seen host.old) (H.seen host.new) }
{
    if !host.has_getitem(handle) {
        return Err(PyError::NotSubscriptable(ClassName::Object));
    }
    if !is_key(key) {
        return Err(PyError::Downcast(ClassName::Str, key.class()));
    }
    match host.get_item(handle, key) {
        Ok(Some(value)) => Ok(value),
        Ok(None) => missing(alloc, key),
        Err(HostAnswer::Failed) => Err(PyError::HostFault),
        Err(HostAnswer::NoMemory) => Err(PyError::NoMemory),
    }
}

/// `obj[key]`. An index counts from the end where it is negative. One character of a text is a
/// text, and a byte an integer. A host answers for a handle.
///
/// # Errors
///
/// `NotSubscriptable` by the class of the value, then `Downcast` by that of the key, then
/// `IndexOutOfRange`, `TupleIndex` or `Key` where nothing is there. Memory runs out only in a copy
/// of what is there or of a key, or in the host; a byte takes none.
pub fn get_item<H: Host>(alloc: Global, host: &mut H, obj: &Value, key: &Value) -> PyResult<Value>
    ensures answers { Answers (spec.item (plain_of obj.now) (plain_of key.now))
        (H.seen host.old) (H.seen host.new) (plainly result) }
    ensures quiet { silent (spec.item (plain_of obj.now) (plain_of key.now)) ≡ true
        → host.new ≡ host.old }
    ensures free { result ≡ Err PyError.NoMemory → spec.ItemRanOut
        (plain_of obj.now) (plain_of key.now) (H.seen host.old) (H.seen host.new) }
{
    match obj {
        Value::Str(text) => text_item(alloc, text, index_of(key)?),
        Value::Bytes(bytes) => bytes_item(bytes, index_of(key)?),
        Value::Tuple(list) => list_item(alloc, list, index_of(key)?),
        Value::List(list) => list_item(alloc, list, index_of(key)?),
        Value::Dict(dict) => dict_item(alloc, dict, &key_of_value(alloc, key)?),
        Value::Handle(handle) => handle_item(alloc, host, *handle, key),
        _ => Err(PyError::NotSubscriptable(obj.class())),
    }
}

fn handle_attr<H: Host>(host: &mut H, handle: u64, name: &PyStr) -> PyResult<Value>
    ensures answers { Answers (spec.attr (handle_of handle) name.now)
        (H.seen host.old) (H.seen host.new) (plainly result) }
    ensures free { result ≡ Err PyError.NoMemory →
        spec.HostRanOut (handle_of handle) name.now (H.seen host.old) (H.seen host.new) }
{
    match host.get_attr(handle, name) {
        Ok(Some(value)) => Ok(value),
        Ok(None) => Err(PyError::NoAttribute(ClassName::Object)),
        Err(HostAnswer::Failed) => Err(PyError::HostFault),
        Err(HostAnswer::NoMemory) => Err(PyError::NoMemory),
    }
}

/// `obj.name`. Handles alone have attributes, and their host answers.
///
/// # Errors
///
/// `NoAttribute` where there is none. Memory runs out only for a handle, and only where its host
/// says that it may.
pub fn get_attr<H: Host>(_alloc: Global, host: &mut H, obj: &Value, name: &PyStr) -> PyResult<Value>
    ensures answers { Answers (spec.attr (plain_of obj.now) name.now)
        (H.seen host.old) (H.seen host.new) (plainly result) }
    ensures quiet { silent (spec.attr (plain_of obj.now) name.now) ≡ true → host.new ≡ host.old }
    ensures free { result ≡ Err PyError.NoMemory →
        spec.HostRanOut (plain_of obj.now) name.now (H.seen host.old) (H.seen host.new) }
{
    match obj {
        Value::Handle(handle) => handle_attr(host, *handle, name),
        _ => Err(PyError::NoAttribute(obj.class())),
    }
}
