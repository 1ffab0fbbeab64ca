//! Where a template is written to: a text, or bytes.

ghost use Rattle.std.specs.Prelude.{◌≡◌, ◌++◌, ℕ, List, OnOk, IsOkUnless};
ghost use Rattle.py_value.specs.Asking.{Answers};
ghost use Rattle.py_value.specs.Printing.{written};
ghost use Rattle.py_value.specs.ValueView.{plain_of};
ghost use Rattle.py_format.specs.Percent.Fold.{literal};
ghost use Rattle.py_format.specs.Percent.Values.{put_value};
ghost use Rattle.py_format.specs.declared.percent.kind.Kind.{Kind as TemplateKind};

use crate::percent::kind::Kind;
use crate::percent::{binary, texts};
use py_base::{PyError, PyResult};
use py_spec::{CFormatPart, CFormatSpec};
use py_text::PyStr;
use py_value::{Host, Value};
use std::alloc::Global;

/// Where a template of one kind is written to.
pub(crate) trait Output {
    /// The kind of the template.
    ghost kind: { TemplateKind };

    /// The units that were written.
    ghost units: { Self → List ℕ };

    /// The kind of the template.
    fn template_kind(&self) -> Kind
        ensures { result ≡ kind };

    /// Puts a literal at the end.
    fn put_literal(&mut self, part: &CFormatPart) -> PyResult<()>
        ensures ok { OnOk result (units self.new ≡ units self.old ++ literal kind part.now) }
        ensures err { IsOkUnless result PyError.NoMemory };

    /// Puts a value at the end.
    fn put_value<H: Host>(
        &mut self,
        alloc: Global,
        host: &mut H,
        asked: &CFormatSpec,
        place: usize,
        value: &Value,
    ) -> PyResult<()>
        ensures { Answers (put_value kind asked.now place (plain_of value.now) (units self.old))
            (H.seen host.old) (H.seen host.new) (written result (units self.new)) };
}

impl Output for PyStr {
    ghost use Rattle.py_format.specs.declared.percent.kind.Kind.TheVariants.{Text};

    ghost kind = { Text };

    ghost units = { λ text. text };

    fn template_kind(&self) -> Kind {
        Kind::Text
    }

    fn put_literal(&mut self, part: &CFormatPart) -> PyResult<()> {
        match part {
            CFormatPart::Literal(text) => self.append_text(text),
            _ => Ok(()),
        }
    }

    fn put_value<H: Host>(
        &mut self,
        alloc: Global,
        host: &mut H,
        asked: &CFormatSpec,
        place: usize,
        value: &Value,
    ) -> PyResult<()> {
        texts::put_value(alloc, host, self, asked, place, value)
    }
}

impl Output for Vec<u8> {
    ghost use Rattle.py_format.specs.declared.percent.kind.Kind.TheVariants.{Binary};

    ghost kind = { Binary };

    ghost units = { λ bytes. bytes.items };

    fn template_kind(&self) -> Kind {
        Kind::Binary
    }

    fn put_literal(&mut self, part: &CFormatPart) -> PyResult<()> {
        match part {
            CFormatPart::LiteralBytes(bytes) => binary::put_bytes(self, bytes.as_bytes()),
            _ => Ok(()),
        }
    }

    fn put_value<H: Host>(
        &mut self,
        alloc: Global,
        host: &mut H,
        asked: &CFormatSpec,
        place: usize,
        value: &Value,
    ) -> PyResult<()> {
        binary::put_value(alloc, host, self, asked, place, value)
    }
}
