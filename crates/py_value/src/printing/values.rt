//! The repr of a value, put at the end of a text.

ghost use Rattle.std.specs.Prelude.{◌≡◌, zero, true};
ghost use Rattle.py_value.specs.Asking.{Answers};
ghost use Rattle.py_value.specs.Plain.{tuple, list, dict, handle as handle_of, bare, values_bare, entries_bare};
ghost use Rattle.py_value.specs.Printing as spec;
ghost use Rattle.py_value.specs.Printing.{written};
ghost use Rattle.py_value.specs.ValueView.{plain_of};

use crate::host::{Host, HostAnswer};
use crate::printing::parts::{
    put_bytes_repr, put_comma, put_label, put_number, put_object, put_text, put_text_repr,
    put_tuple_end,
};
use crate::value::{PyDict, Value, ValueList};
use py_base::{PyError, PyResult};
use py_text::PyStr;
use std::alloc::Global;

pub(crate) fn put_handle<H: Host>(
    alloc: Global,
    host: &mut H,
    out: &mut PyStr,
    handle: u64,
) -> PyResult<()>
    ensures { Answers (spec.put_repr (handle_of handle) out.old)
        (H.seen host.old) (H.seen host.new) (written result out.new) }
{
    match host.repr_of(handle) {
        Ok(Some(answer)) => put_text(out, &answer),
        Ok(None) => {
            put_object(alloc, out, handle)?;
            Ok(())
        }
        Err(HostAnswer::Failed) => Err(PyError::HostFault),
        Err(HostAnswer::NoMemory) => Err(PyError::NoMemory),
    }
}

impl Value {
    // Puts the repr at the end of a text.
    #[cycle(prints)]
    pub(crate) fn put_repr<H: Host>(
        &self,
        alloc: Global,
        host: &mut H,
        out: &mut PyStr,
    ) -> PyResult<()>
        ensures answers { Answers (spec.put_repr (plain_of self.now) out.old)
            (H.seen host.old) (H.seen host.new) (written result out.new) }
        ensures quiet { bare (plain_of self.now) ≡ true → host.new ≡ host.old }
    {
        match self {
            Value::None => {
                out.append_ascii("None")?;
                Ok(())
            }
            Value::Bool(true) => {
                out.append_ascii("True")?;
                Ok(())
            }
            Value::Bool(false) => {
                out.append_ascii("False")?;
                Ok(())
            }
            Value::Int(number) => {
                put_number(alloc, out, *number)?;
                Ok(())
            }
            Value::Str(text) => {
                put_text_repr(alloc, out, text)?;
                Ok(())
            }
            Value::Bytes(bytes) => {
                put_bytes_repr(alloc, out, bytes)?;
                Ok(())
            }
            Value::Tuple(list) => list.put_tuple(alloc, host, out),
            Value::List(list) => list.put_list(alloc, host, out),
            Value::Dict(dict) => dict.put_dict(alloc, host, out),
            Value::Handle(handle) => put_handle(alloc, host, out, *handle),
        }
    }
}

impl ValueList {
    #[cycle(prints)]
    fn put_tuple<H: Host>(&self, alloc: Global, host: &mut H, out: &mut PyStr) -> PyResult<()>
        ensures answers { Answers (spec.put_repr (tuple self.now) out.old)
            (H.seen host.old) (H.seen host.new) (written result out.new) }
        ensures quiet { values_bare self.now ≡ true → host.new ≡ host.old }
    {
        out.append_ascii("(")?;
        self.put_values(alloc, host, out)?;
        put_tuple_end(out, self)?;
        Ok(())
    }

    #[cycle(prints)]
    fn put_list<H: Host>(&self, alloc: Global, host: &mut H, out: &mut PyStr) -> PyResult<()>
        ensures answers { Answers (spec.put_repr (list self.now) out.old)
            (H.seen host.old) (H.seen host.new) (written result out.new) }
        ensures quiet { values_bare self.now ≡ true → host.new ≡ host.old }
    {
        out.append_ascii("[")?;
        self.put_values(alloc, host, out)?;
        out.append_ascii("]")?;
        Ok(())
    }

    #[cycle(prints)]
    fn put_values<H: Host>(&self, alloc: Global, host: &mut H, out: &mut PyStr) -> PyResult<()>
        ensures answers { Answers (spec.put_values zero self.now out.old)
            (H.seen host.old) (H.seen host.new) (written result out.new) }
        ensures quiet { values_bare self.now ≡ true → host.new ≡ host.old }
    {
        for (i, item) in self.items.iter().enumerate() {
            put_comma(out, i)?;
            item.put_repr(alloc, host, out)?;
        }
        Ok(())
    }
}

impl PyDict {
    #[cycle(prints)]
    fn put_dict<H: Host>(&self, alloc: Global, host: &mut H, out: &mut PyStr) -> PyResult<()>
        ensures answers { Answers (spec.put_repr (dict self.now) out.old)
            (H.seen host.old) (H.seen host.new) (written result out.new) }
        ensures quiet { entries_bare self.now ≡ true → host.new ≡ host.old }
    {
        out.append_ascii("{")?;
        self.put_entries(alloc, host, out)?;
        out.append_ascii("}")?;
        Ok(())
    }

    #[cycle(prints)]
    fn put_entries<H: Host>(&self, alloc: Global, host: &mut H, out: &mut PyStr) -> PyResult<()>
        ensures answers { Answers (spec.put_entries zero self.now out.old)
            (H.seen host.old) (H.seen host.new) (written result out.new) }
        ensures quiet { entries_bare self.now ≡ true → host.new ≡ host.old }
    {
        for (i, item) in self.entries.iter().enumerate() {
            put_label(alloc, out, i, &item.key)?;
            item.value.put_repr(alloc, host, out)?;
        }
        Ok(())
    }
}
