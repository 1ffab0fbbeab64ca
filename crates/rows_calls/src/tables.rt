//! Lines that agree, lines that differ, and lines that are no calls.

use call_tables::{Report, Table, add_table};
use std::alloc::{AllocError, Global};
use std::test::Fail;

// Five lines of which one agrees: a sum, a wrong sum, a number that is written otherwise, a call
// that there is none of, and no call.
const LINES: &str = "add i1 i2 = i3\nadd i1 i2 = i4\nadd i1 i02 = i3\nnone i1 i2 = i3\nadd\n";

const TOLD: &str = "numbers
  differs: add i1 i2 = i4
    gives i3
  differs: add i1 i02 = i3
    gives nothing: bad arguments
  add 1 of 3
  differs: none i1 i2 = i3
    gives nothing: no such call
  none 0 of 1
  differs: add
    gives nothing: no line of a table
  (no call) 0 of 1
1 of 5 calls agree
";

// Calls that fail with an error of their own, where the table has another answer.
const FAILING: &str = "index t61 t62 - - = i0\nindex t61 t61 - - = i0\n";

const FAILING_TOLD: &str = "texts
  differs: index t61 t62 - - = i0
    gives error substring_not_found
  index 1 of 2
1 of 2 calls agree
";

// The report on one table of these lines.
fn report_on(alloc: Global, file: &str, table: Table, lines: &str) -> Result<Report, AllocError> {
    let mut report = Report::new(alloc);
    add_table(alloc, &mut report, file, &table, lines)?;
    report.end()?;
    Ok(report)
}

#[test]
fn lines_are_told(rt: HostRuntime) -> Result<(), Fail> {
    let report = report_on(rt.alloc(), "numbers", Table::Numbers, LINES)?;
    assert_eq!(rt; (report.text(), report.is_clean()), (TOLD, false));
    Ok(())
}

#[test]
fn what_agrees_is_clean(rt: HostRuntime) -> Result<(), Fail> {
    let lines = "lengths tc3a961 = i2 i3 i0\ncontains t6162 t62 = i1\n";
    let report = report_on(rt.alloc(), "texts", Table::Searches, lines)?;
    let told = "texts\n  lengths 1 of 1\n  contains 1 of 1\n2 of 2 calls agree\n";
    assert_eq!(rt; (report.text(), report.is_clean()), (told, true));
    Ok(())
}

#[test]
fn an_error_of_a_call_is_told_by_its_name(rt: HostRuntime) -> Result<(), Fail> {
    let report = report_on(rt.alloc(), "texts", Table::Searches, FAILING)?;
    assert_eq!(rt; (report.text(), report.is_clean()), (FAILING_TOLD, false));
    Ok(())
}
