//! The report on calls: how many agree with CPython, by call, and each that does not.

ghost use Rattle.std.specs.Prelude.{◌≡◌, ◌<◌, ◌↔◌, ◌++◌, IsTrue, OnOk, string_bytes};
ghost use Rattle.std.specs.Process.{exit_status};
ghost use Rattle.py_base.specs.Counts.{one_more};
ghost use Rattle.call_tables.specs.Report.{nothing_told, add_call, next_call, in_call, begin_file, tell_agreeing, tell_differing, counts_of_all, tell_all};

use std::alloc::{AllocError, Global};
use std::marker::Model;
use std::process::ExitCode;

/// Counts of calls and of those that agree. A count stops at its last number.
#[derive(Clone, Copy, Debug)]
pub struct Tally {
    pub calls: u64,
    pub agreeing: u64,
}

impl Tally {
    const EMPTY: Tally = Tally {
        calls: 0,
        agreeing: 0,
    };

    // One more call, and whether it agrees.
    fn add(&mut self, agrees: bool)
        ensures { self.new ≡ add_call agrees self.old }
    {
        self.calls = self.calls.saturating_add(1);
        if agrees {
            self.agreeing = self.agreeing.saturating_add(1);
        }
    }
}

// Writes the counts of all.
fn write_counts(text: &mut String, all: Tally) -> Result<(), AllocError>
    ensures { OnOk result (string_bytes text.new ≡ string_bytes text.old ++ counts_of_all all) }
{
    let Tally { calls, agreeing } = all;
    write!(text, "{agreeing} of {calls} calls agree\n")
}

/// The text of a report, the counts of the call whose lines are being read, and those of all.
/// Contracts see all of these.
#[derive(Drop)]
pub struct Report {
    text: String,
    call: String,
    current: Tally,
    all: Tally,
}

impl Model for Report {
    ghost use Rattle.std.specs.Prelude.{string_bytes};
    ghost use Rattle.call_tables.specs.Report.{Told};

    ghost Value = { Told };

    ghost view = { λ report.
        record {
          text = string_bytes report.text;
          call = string_bytes report.call;
          current = report.current;
          all = report.all;
        } };
}

impl Report {
    /// An empty report.
    pub fn new(alloc: Global) -> Report
        ensures { result ≡ nothing_told }
    {
        Report {
            text: String::new(alloc),
            call: String::new(alloc),
            current: Tally::EMPTY,
            all: Tally::EMPTY,
        }
    }

    /// Begins the lines of a file.
    pub fn begin(&mut self, file: &str) -> Result<(), AllocError>
        ensures told { OnOk result (self.new ≡ begin_file file.now self.old) }
        ensures counts { self.new.all ≡ self.old.all }
    {
        self.turn_to("")?;
        write!(self.text, "{file}\n")
    }

    // Begins the lines of a call.
    fn turn_to(&mut self, name: &str) -> Result<(), AllocError>
        ensures told { OnOk result (self.new ≡ next_call name.now self.old) }
        ensures counts { self.new.all ≡ self.old.all }
    {
        if self.current.calls > 0 {
            let call = self.call.as_str();
            let Tally { calls, agreeing } = self.current;
            write!(self.text, "  {call} {agreeing} of {calls}\n")?;
        }
        self.call.clear();
        self.current = Tally::EMPTY;
        self.call.push_str(name)
    }

    // Begins the lines of a call, unless the line before is one of them.
    fn stay_in(&mut self, name: &str) -> Result<(), AllocError>
        ensures told { OnOk result (self.new ≡ in_call name.now self.old) }
        ensures counts { self.new.all ≡ self.old.all }
    {
        if self.call.as_str() == name {
            Ok(())
        } else {
            self.turn_to(name)
        }
    }

    /// Adds a line of the call of this name, which gives what the line wants.
    pub fn agree(&mut self, name: &str) -> Result<(), AllocError>
        ensures told { OnOk result (self.new ≡ tell_agreeing name.now self.old) }
        ensures calls { OnOk result (self.new.all.calls ≡ one_more self.old.all.calls) }
        ensures agreeing { OnOk result (self.new.all.agreeing ≡ one_more self.old.all.agreeing) }
    {
        self.stay_in(name)?;
        self.current.add(true);
        self.all.add(true);
        Ok(())
    }

    /// Adds a line of the call of this name, which gives something else.
    pub fn differ(&mut self, name: &str, line: &str, given: &str) -> Result<(), AllocError>
        ensures told { OnOk result
            (self.new ≡ tell_differing name.now line.now given.now self.old) }
        ensures calls { OnOk result (self.new.all.calls ≡ one_more self.old.all.calls) }
        ensures agreeing { OnOk result (self.new.all.agreeing ≡ self.old.all.agreeing) }
    {
        self.stay_in(name)?;
        self.current.add(false);
        self.all.add(false);
        write!(self.text, "  differs: {line}\n    gives{given}\n")
    }

    /// Writes the counts of all.
    pub fn end(&mut self) -> Result<(), AllocError>
        ensures told { OnOk result (self.new ≡ tell_all self.old) }
        ensures counts { self.new.all ≡ self.old.all }
    {
        self.turn_to("")?;
        write_counts(&mut self.text, self.all)
    }

    /// The text of the report.
    pub fn text(&self) -> &str
        ensures { result.now ≡ self.now.text }
    {
        self.text.as_str()
    }

    /// The counts of all.
    pub fn all(&self) -> Tally
        ensures { result ≡ self.now.all }
    {
        self.all
    }

    /// Whether there are calls, and each agrees.
    pub fn is_clean(&self) -> bool
        ensures { IsTrue result
            ↔ ((0 < self.now.all.calls) × (self.now.all.calls ≡ self.now.all.agreeing)) }
    {
        self.all.calls > 0 && self.all.calls == self.all.agreeing
    }

    /// The status of a program that prints the report: 0 or 1.
    pub fn exit_code(&self) -> ExitCode
        ensures { (exit_status result ≡ 0)
            ↔ ((0 < self.now.all.calls) × (self.now.all.calls ≡ self.now.all.agreeing)) }
    {
        if self.is_clean() {
            ExitCode::SUCCESS
        } else {
            ExitCode::FAILURE
        }
    }
}
