//! Tables: a call a line, with its answer.

ghost use Rattle.std.specs.Prelude.{◌≡◌, OnOk};
ghost use Rattle.std.specs.Str.Lines.{lines};
ghost use Rattle.std.specs.Vec.{vec_items};
ghost use Rattle.call_tables.specs.Lines.{AddsLine, AddsLines};
ghost use Rattle.call_tables.specs.Results.{items_of};

use crate::calls::{forms, numbers, pieces, searches, slices, values};
use crate::reading::call_of;
use crate::report::Report;
use crate::results::{Outcome, is_of_call, written};
use crate::token::Token;
use std::alloc::{AllocError, Global};

/// The calls of a table.
pub trait Calls {
    ghost use Rattle.std.specs.Prelude.{List, ℕ, Result};
    ghost use Rattle.call_tables.specs.declared.fault.Fault.{Fault};
    ghost use Rattle.call_tables.specs.declared.token.Token.{Token};

    /// What the call of a name may give on these arguments.
    ghost may_give: { Self → List ℕ → List Token → Result (List Token) Fault → Type 0 };

    /// What the call of this name gives on these arguments.
    fn answer(&self, alloc: Global, name: &str, arguments: &[Token]) -> Outcome
        ensures { may_give self.now name.now arguments.now (items_of vec_items result) };
}

/// Which calls a table holds.
#[derive(Clone, Copy, Debug, PartialEq, Eq)]
pub enum Table {
    Searches,
    Pieces,
    Slices,
    Numbers,
    Forms,
    Values,
}

impl Calls for Table {
    ghost use Rattle.call_tables.specs.Calls.Tables.{may_give as of_table};

    ghost may_give = { of_table };

    fn answer(&self, alloc: Global, name: &str, arguments: &[Token]) -> Outcome {
        match self {
            Table::Searches => searches::answer(alloc, name, arguments),
            Table::Pieces => pieces::answer(alloc, name, arguments),
            Table::Slices => slices::answer(alloc, name, arguments),
            Table::Numbers => numbers::answer(alloc, name, arguments),
            Table::Forms => forms::answer(alloc, name, arguments),
            Table::Values => values::answer(alloc, name, arguments),
        }
    }
}

// The name of a call: what is before the first space.
fn name_of(call: &str) -> &str {
    match call.split_once(' ') {
        Some((name, _)) => name,
        None => call,
    }
}

/// Makes each call of a table, and adds it to the report.
pub fn add_table<C: Calls>(
    alloc: Global,
    report: &mut Report,
    file: &str,
    table: &C,
    text: &str,
) -> Result<(), AllocError>
    ensures { OnOk result
        (AddsLines (C.may_give table.now) (lines text.now) report.old.all report.new.all) }
{
    report.begin(file)?;
    for line in text.lines() {
        add_line(alloc, report, table, line)?;
    }
    Ok(())
}

fn add_line<C: Calls>(
    alloc: Global,
    report: &mut Report,
    table: &C,
    line: &str,
) -> Result<(), AllocError>
    ensures { OnOk result
        (AddsLine (C.may_give table.now) line.now report.old.all report.new.all) }
{
    let Some((text, wanted)) = line.split_once(" =") else {
        return report.differ("(no call)", line, " nothing: no line of a table");
    };
    match call_of(alloc, text) {
        Ok(call) => {
            let outcome = table.answer(alloc, call.name, &call.arguments);
            let given = written(alloc, &outcome)?;
            if is_of_call(&outcome) && given.as_str() == wanted {
                report.agree(call.name)
            } else {
                report.differ(call.name, line, given.as_str())
            }
        }
        Err(fault) => {
            let given = written(alloc, &Err(fault))?;
            report.differ(name_of(text), line, given.as_str())
        }
    }
}
