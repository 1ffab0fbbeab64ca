//! The values that specifiers without keys take, one after another.

ghost use Rattle.std.specs.Prelude.{◌≡◌, ◌==◌, MatchOption};
ghost use Rattle.py_value.specs.Asking.{Meets};
ghost use Rattle.py_value.specs.Plain.{empty, ◌then◌, size_of_values};
ghost use Rattle.py_value.specs.ValueView.{plain_of};
ghost use Rattle.py_format.specs.Percent.Taking as spec;
ghost use Rattle.py_format.specs.Percent.Taking.{plain_value, with_left};

use py_base::{PercentCause, PrimitiveName, PyError, PyResult};
use py_spec::{CConversionFlags, CFormatPrecision, CFormatQuantity, CFormatSpec};
use py_value::{Value, ValueList};
use std::marker::Model;

/// A width, and the flags with it.
#[derive(Clone, Copy, Debug)]
pub struct Width {
    pub amount: Option<CFormatQuantity>,
    pub flags: CConversionFlags,
}

/// The values of a list from a place on. Contracts see the plain values.
#[derive(Drop)]
struct Items<'a> {
    values: &'a ValueList,
    at: usize,
}

impl<'a> Model for Items<'a> {
    ghost use Rattle.std.specs.Prelude.{◌≤◌};
    ghost use Rattle.py_value.specs.Plain.{Plains, size_of_values};
    ghost use Rattle.py_value.specs.PlainCode.{plains_code};
    ghost use Rattle.py_format.specs.Percent.Taking.{from};

    ghost Value = { Plains };

    ghost coded = { plains_code };

    ghost view = { λ a. from a.at a.values.now };

    ghost invariant = { λ a. a.at ≤ size_of_values a.values.now };
}

/// The values that are left to be taken: one, and those of a list. Contracts see the plain values.
#[derive(Drop)]
pub(crate) struct Remaining<'a> {
    one: Option<&'a Value>,
    items: Items<'a>,
}

impl<'a> Model for Remaining<'a> {
    ghost use Rattle.py_value.specs.Plain.{Plains};
    ghost use Rattle.py_value.specs.PlainCode.{plains_code};
    ghost use Rattle.py_format.specs.Percent.Taking.{after_one};

    ghost Value = { Plains };

    ghost coded = { plains_code };

    ghost view = { λ a. after_one a.one a.items };
}

fn width_of(flags: CConversionFlags, number: i32) -> Width
    ensures { result ≡ spec.width_of flags number }
{
    let amount = Some(CFormatQuantity::Amount(number.unsigned_abs() as usize));
    let flags = if number < 0 {
        flags.with(CConversionFlags::LEFT_ADJUST)
    } else {
        flags
    };
    Width { amount, flags }
}

fn precision_of(number: i32) -> usize
    ensures { result ≡ spec.precision_of number }
{
    if number < 0 { 0 } else { number as usize }
}

/// The specifier with a width and a precision that were taken.
pub(crate) fn settled(
    asked: &CFormatSpec,
    width: Width,
    precision: Option<CFormatPrecision>,
) -> CFormatSpec
    ensures { result ≡ spec.settled asked.now width precision }
{
    CFormatSpec {
        mapping_key: None,
        flags: width.flags,
        min_field_width: width.amount,
        precision,
        format_type: asked.format_type,
        format_char: asked.format_char,
    }
}

impl<'a> Items<'a> {
    fn next(&mut self) -> Option<&'a Value>
        ensures { MatchOption result (self.old ≡ empty)
            (λ v. self.old ≡ plain_of v.now then self.new) }
    {
        if self.at == self.values.len() {
            return None;
        }
        match self.values.get(self.at) {
            Some(value) => {
                self.at += 1;
                Some(value)
            }
            None => None,
        }
    }

    fn is_empty(&self) -> bool
        ensures { result ≡ (size_of_values self.now == 0) }
    {
        self.at == self.values.len()
    }
}

impl<'a> Remaining<'a> {
    /// The values of a list.
    pub(crate) fn of_list(values: &'a ValueList) -> Remaining<'a>
        ensures { result ≡ values.now }
    {
        Remaining {
            one: None,
            items: Items { values, at: 0 },
        }
    }

    /// One value, before those of a list.
    pub(crate) fn of_one(value: &'a Value, values: &'a ValueList) -> Remaining<'a>
        ensures { result ≡ plain_of value.now then values.now }
    {
        Remaining {
            one: Some(value),
            items: Items { values, at: 0 },
        }
    }

    fn next(&mut self) -> Option<&'a Value>
        ensures { MatchOption result (self.old ≡ empty)
            (λ v. self.old ≡ plain_of v.now then self.new) }
    {
        match self.one {
            Some(value) => {
                self.one = None;
                Some(value)
            }
            None => self.items.next(),
        }
    }

    /// Whether no value is left.
    pub(crate) fn is_empty(&self) -> bool
        ensures { result ≡ (size_of_values self.now == 0) }
    {
        match self.one {
            Some(_) => false,
            None => self.items.is_empty(),
        }
    }

    fn take_star(&mut self) -> PyResult<i32>
        ensures { Meets (spec.take_star self.old) (with_left result self.new) }
    {
        let Some(value) = self.next() else {
            return Err(PyError::PercentArgs(PercentCause::NotEnough));
        };
        let Some(number) = value.as_integer() else {
            return Err(PyError::PercentArgs(PercentCause::StarNotInt));
        };
        match i32::try_from(number.as_i128()) {
            Ok(number) => Ok(number),
            Err(_) => Err(PyError::IntTooLargeFor(PrimitiveName::I32)),
        }
    }

    /// The width, where it is a `*` from the next value.
    pub(crate) fn take_width(
        &mut self,
        flags: CConversionFlags,
        width: Option<CFormatQuantity>,
    ) -> PyResult<Width>
        ensures { Meets (spec.take_width flags width self.old) (with_left result self.new) }
    {
        match width {
            None => Ok(Width {
                amount: None,
                flags,
            }),
            Some(CFormatQuantity::Amount(size)) => Ok(Width {
                amount: Some(CFormatQuantity::Amount(size)),
                flags,
            }),
            Some(CFormatQuantity::FromValuesTuple) => Ok(width_of(flags, self.take_star()?)),
        }
    }

    /// The precision, where it is a `*` from the next value.
    pub(crate) fn take_precision(
        &mut self,
        precision: Option<CFormatPrecision>,
    ) -> PyResult<Option<CFormatPrecision>>
        ensures { Meets (spec.take_precision precision self.old) (with_left result self.new) }
    {
        match precision {
            None => Ok(None),
            Some(CFormatPrecision::Dot) => Ok(Some(CFormatPrecision::Dot)),
            Some(CFormatPrecision::Quantity(CFormatQuantity::Amount(size))) => Ok(Some(
                CFormatPrecision::Quantity(CFormatQuantity::Amount(size)),
            )),
            Some(CFormatPrecision::Quantity(CFormatQuantity::FromValuesTuple)) => {
                let size = precision_of(self.take_star()?);
                Ok(Some(CFormatPrecision::Quantity(CFormatQuantity::Amount(size))))
            }
        }
    }

    /// The next value.
    pub(crate) fn next_value(&mut self) -> PyResult<&'a Value>
        ensures { Meets (spec.next_value self.old) (with_left (plain_value result) self.new) }
    {
        match self.next() {
            Some(value) => Ok(value),
            None => Err(PyError::PercentArgs(PercentCause::NotEnough)),
        }
    }
}
