//! Tables by code points for `translate`.

ghost use Rattle.std.specs.Prelude.{◌≡◌, pos, chars, option_copied, true, Err, IfOk, OnOk, IsOkUnless};
ghost use Rattle.py_value.specs.Asking.{Meets};
ghost use Rattle.py_value.specs.Dict.{put};
ghost use Rattle.py_value.specs.Maketrans as spec;
ghost use Rattle.py_value.specs.Maketrans.{table_after};
ghost use Rattle.py_value.specs.Plain.{no_entries};
ghost use Rattle.py_value.specs.ValueView.{plain_of};
ghost use Rattle.py_value.specs.declared.value.DictKey.TheVariants.{Int as IntKey};

use crate::translate::code_of;
use crate::value::{DictItem, DictKey, PyDict, Value};
use py_base::{MaketransKind, OptionalArg, PyError, PyResult};
use py_text::PyStr;
use std::alloc::Global;

// Puts the value under the code point.
fn put_char(table: &mut PyDict, c: char, value: Value) -> PyResult<()>
    ensures ok { OnOk result (table.new ≡ put (IntKey (pos c)) (plain_of value) table.old) }
    ensures err { IsOkUnless result PyError.NoMemory }
{
    table.set_item(DictKey::Int(code_of(c)), value)
}

// Puts the characters at one place under one another.
fn put_pairs(table: &mut PyDict, from: &str, to: &str) -> PyResult<()>
    ensures ok { OnOk result
        (table.new ≡ spec.put_pairs (chars from.now) (chars to.now) table.old) }
    ensures err { IsOkUnless result PyError.NoMemory }
{
    let mut left = from.chars();
    let mut right = to.chars();
    'chars: while let Some(c) = left.next() {
        let Some(d) = right.next() else {
            return Ok(());
        };
        put_char(table, c, Value::Int(code_of(d)))?;
    }
    Ok(())
}

// Puts None under each character.
fn put_nones(table: &mut PyDict, dropped: &str) -> PyResult<()>
    ensures ok { OnOk result (table.new ≡ spec.put_nones (chars dropped.now) table.old) }
    ensures err { IsOkUnless result PyError.NoMemory }
{
    let mut rest = dropped.chars();
    'chars: while let Some(c) = rest.next() {
        put_char(table, c, Value::None)?;
    }
    Ok(())
}

// The argument, where it is given.
fn given(argument: OptionalArg<PyStr>) -> Option<PyStr>
    ensures { result ≡ spec.given argument }
{
    match argument {
        OptionalArg::Present(text) => Some(text),
        OptionalArg::Missing => None,
    }
}

// The table that replaces characters and drops others.
fn of_texts(alloc: Global, from: &PyStr, to: &PyStr, dropped: Option<&PyStr>) -> PyResult<PyDict>
    ensures ok { IfOk result (λ made. made ≡ spec.put_dropped (option_copied dropped.entry)
        (spec.put_pairs from.now to.now no_entries)) }
    ensures err { IsOkUnless result PyError.NoMemory }
{
    let mut table = PyDict::new(alloc);
    put_pairs(&mut table, from.as_str(), to.as_str())?;
    if let Some(dropped) = dropped {
        put_nones(&mut table, dropped.as_str())?;
    }
    Ok(table)
}

// The only character of a text.
fn only_char(text: &PyStr) -> PyResult<char>
    ensures { result ≡ spec.only_char text.now }
{
    if text.len() != 1 {
        return Err(PyError::Maketrans(MaketransKind::KeyLength));
    }
    match text.getitem_by_index(0) {
        Ok(c) => Ok(c),
        Err(_) => Err(PyError::Maketrans(MaketransKind::KeyLength)),
    }
}

// Puts a value of a dictionary under its key's code point.
fn put_keyed(table: &mut PyDict, key: DictKey, value: Value) -> PyResult<()>
    ensures { Meets (spec.put_key key (plain_of value) table.old) (table_after result table.new) }
{
    match key {
        DictKey::Int(number) => {
            table.set_item(DictKey::Int(number), value)?;
            Ok(())
        }
        DictKey::Str(text) => {
            put_char(table, only_char(&text)?, value)?;
            Ok(())
        }
        DictKey::Bytes(_) => Ok(()),
    }
}

// The table of a dictionary.
fn of_dict(alloc: Global, dict: PyDict) -> PyResult<PyDict>
    ensures { Meets (spec.put_keys dict no_entries) result }
{
    let mut table = PyDict::new(alloc);
    let mut left = dict.into_entries();
    left.reverse();
    'items: while let Some(item) = left.pop() {
        let DictItem { key, value } = item;
        put_keyed(&mut table, key, value)?;
    }
    Ok(table)
}

/// A table for `translate`, by code points: of a dictionary, or of texts whose characters replace
/// one another, with those that are dropped.
pub(crate) fn maketrans(
    alloc: Global,
    dict_or_str: Value,
    to_str: OptionalArg<PyStr>,
    none_str: OptionalArg<PyStr>,
) -> PyResult<PyDict>
    ensures made { Meets (spec.maketrans (plain_of dict_or_str)
        (spec.given to_str) (spec.given none_str)) result }
    ensures free { result ≡ Err PyError.NoMemory
        → spec.fit (plain_of dict_or_str) (spec.given to_str) ≡ true }
{
    let dropped = given(none_str);
    match (dict_or_str, given(to_str)) {
        (Value::Str(from), Some(to)) => {
            if from.len() == to.len() {
                of_texts(alloc, &from, &to, dropped.as_ref())
            } else {
                Err(PyError::Maketrans(MaketransKind::EqualLength))
            }
        }
        (_, Some(_)) => Err(PyError::Maketrans(MaketransKind::NeedsString)),
        (Value::Dict(dict), None) => of_dict(alloc, dict),
        (_, None) => Err(PyError::Maketrans(MaketransKind::NeedsDict)),
    }
}
