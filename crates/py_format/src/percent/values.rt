//! What a value is as a number, as a character, and as bytes.

ghost use Rattle.std.specs.Prelude.{◌≡◌, ok_or};
ghost use Rattle.py_base.specs.declared.error.percent.PercentCause.TheVariants.{NumberRequired, BytesRequired};
ghost use Rattle.py_base.specs.declared.error.PyError.TheVariants.{PercentArgs};
ghost use Rattle.py_base.specs.declared.error.type_names.ClassName.TheVariants.{Object};
ghost use Rattle.py_value.specs.Asking.{Answers};
ghost use Rattle.py_value.specs.Classes.{integer_of};
ghost use Rattle.py_value.specs.Plain.{handle as handle_of};
ghost use Rattle.py_value.specs.Translate.{char_of};
ghost use Rattle.py_value.specs.ValueView.{plain_of};
ghost use Rattle.py_format.specs.Percent.Values as spec;
ghost use Rattle.py_format.specs.declared.percent.kind.Kind.TheVariants.{Text, Binary};

use py_base::{ClassName, PercentCause, PyError, PyResult};
use py_int::{PyBool, PyInt};
use py_spec::{CFormatSpec, CNumberType};
use py_text::{PyBytes, PyStr};
use py_value::{Host, HostAnswer, Value};
use std::alloc::Global;

fn no_number(asked: &CFormatSpec, class: ClassName) -> PyError
    ensures { result ≡ PercentArgs (NumberRequired asked.now.format_char class) }
{
    PyError::PercentArgs(PercentCause::NumberRequired(asked.format_char, class))
}

// What a handle answered, as an integer.
fn told_number(asked: &CFormatSpec, answer: &Value) -> PyResult<PyInt>
    ensures { result ≡ ok_or (integer_of (plain_of answer.now))
        (PercentArgs (NumberRequired asked.now.format_char Object)) }
{
    match answer.as_integer() {
        Some(number) => Ok(number),
        None => Err(no_number(asked, ClassName::Object)),
    }
}

fn handle_number<H: Host>(host: &mut H, asked: &CFormatSpec, handle: u64) -> PyResult<PyInt>
    ensures { Answers (spec.decimal_of asked.now (handle_of handle))
        (H.seen host.old) (H.seen host.new) result }
{
    match host.to_int(handle) {
        Ok(Some(answer)) => told_number(asked, &answer),
        Ok(None) => Err(no_number(asked, ClassName::Object)),
        Err(HostAnswer::Failed) => Err(PyError::HostFault),
        Err(HostAnswer::NoMemory) => Err(PyError::NoMemory),
    }
}

fn decimal_of<H: Host>(host: &mut H, asked: &CFormatSpec, value: &Value) -> PyResult<PyInt>
    ensures { Answers (spec.decimal_of asked.now (plain_of value.now))
        (H.seen host.old) (H.seen host.new) result }
{
    match value {
        Value::Handle(handle) => handle_number(host, asked, *handle),
        _ => match value.as_integer() {
            Some(number) => Ok(number),
            None => Err(no_number(asked, value.class())),
        },
    }
}

fn integer_in(asked: &CFormatSpec, value: &Value) -> PyResult<PyInt>
    ensures { result ≡ spec.integer_in asked.now (plain_of value.now) }
{
    match value.as_integer() {
        Some(number) => Ok(number),
        None => Err(PyError::PercentArgs(PercentCause::IntegerRequired(
            asked.format_char,
            value.class(),
        ))),
    }
}

/// The number of a value.
pub(crate) fn number_of<H: Host>(
    host: &mut H,
    kind: CNumberType,
    asked: &CFormatSpec,
    value: &Value,
) -> PyResult<PyInt>
    ensures { Answers (spec.number_of kind asked.now (plain_of value.now))
        (H.seen host.old) (H.seen host.new) result }
{
    match kind {
        CNumberType::Decimal => decimal_of(host, asked, value),
        CNumberType::Octal | CNumberType::Hex | CNumberType::HexUpper => integer_in(asked, value),
    }
}

fn char_of(number: PyInt) -> Option<char>
    ensures { result ≡ char_of number }
{
    match u32::try_from(number.as_i128()) {
        Ok(code) => char::from_u32(code),
        Err(_) => None,
    }
}

fn char_of_number(number: PyInt) -> PyResult<char>
    ensures { result ≡ spec.unit_of Text number }
{
    match char_of(number) {
        Some(c) => Ok(c),
        None => Err(PyError::CharRange(0x110000)),
    }
}

fn only_char(text: &PyStr) -> PyResult<char>
    ensures { result ≡ spec.only_unit Text text.now }
{
    if text.len() != 1 {
        return Err(PyError::PercentArgs(PercentCause::CharRequired(false)));
    }
    Ok(text.do_get(0))
}

/// The character of a value.
pub(crate) fn char_in(value: &Value) -> PyResult<char>
    ensures { result ≡ spec.char_in Text (plain_of value.now) }
{
    match value {
        Value::Bool(value) => char_of_number(PyBool::new(*value).as_int()),
        Value::Int(number) => char_of_number(*number),
        Value::Str(text) => only_char(text),
        _ => Err(PyError::PercentArgs(PercentCause::CharRequired(false))),
    }
}

fn byte_of_number(number: PyInt) -> PyResult<u8>
    ensures { result ≡ spec.unit_of Binary number }
{
    match u8::try_from(number.as_i128()) {
        Ok(byte) => Ok(byte),
        Err(_) => Err(PyError::CharRange(256)),
    }
}

fn only_byte(bytes: &PyBytes) -> PyResult<u8>
    ensures { result ≡ spec.only_unit Binary bytes.now }
{
    match bytes.as_bytes() {
        [byte] => Ok(*byte),
        _ => Err(PyError::PercentArgs(PercentCause::CharRequired(true))),
    }
}

/// The byte of a value.
pub(crate) fn byte_in(value: &Value) -> PyResult<u8>
    ensures { result ≡ spec.char_in Binary (plain_of value.now) }
{
    match value {
        Value::Bool(value) => byte_of_number(PyBool::new(*value).as_int()),
        Value::Int(number) => byte_of_number(*number),
        Value::Bytes(bytes) => only_byte(bytes),
        _ => Err(PyError::PercentArgs(PercentCause::CharRequired(true))),
    }
}

fn no_bytes(class: ClassName) -> PyError
    ensures { result ≡ PercentArgs (BytesRequired class) }
{
    PyError::PercentArgs(PercentCause::BytesRequired(class))
}

// The bytes that a host answered, moved.
fn told_bytes(answer: Value) -> PyResult<PyBytes>
    ensures { result ≡ spec.answered_bytes (plain_of answer) }
{
    match answer {
        Value::Bytes(bytes) => Ok(bytes),
        other => Err(PyError::Downcast(ClassName::Bytes, other.class())),
    }
}

fn handle_bytes<H: Host>(host: &mut H, handle: u64) -> PyResult<PyBytes>
    ensures { Answers (spec.bytes_of (handle_of handle))
        (H.seen host.old) (H.seen host.new) result }
{
    match host.to_bytes(handle) {
        Ok(Some(answer)) => told_bytes(answer),
        Ok(None) => Err(no_bytes(ClassName::Object)),
        Err(HostAnswer::Failed) => Err(PyError::HostFault),
        Err(HostAnswer::NoMemory) => Err(PyError::NoMemory),
    }
}

/// The bytes of a value.
pub(crate) fn bytes_of<H: Host>(alloc: Global, host: &mut H, value: &Value) -> PyResult<PyBytes>
    ensures { Answers (spec.bytes_of (plain_of value.now))
        (H.seen host.old) (H.seen host.new) result }
{
    match value {
        Value::Bytes(bytes) => Ok(bytes.try_clone(alloc)?),
        Value::Handle(handle) => handle_bytes(host, *handle),
        _ => Err(no_bytes(value.class())),
    }
}
