//! Makes the calls of the tables in `data/`, and tells how many answers are CPython's.
#![tactic(auto)]

use call_tables::{Report, Table, add_table};
use std::process::ExitCode;
use std::{fs, io};

// The tables, each with the file that holds it.
const TABLES: [(&str, Table); 6] = [
    ("texts.table", Table::Searches),
    ("pieces.table", Table::Pieces),
    ("slices.table", Table::Slices),
    ("numbers.table", Table::Numbers),
    ("forms.table", Table::Forms),
    ("values.table", Table::Values),
];

fn main(rt: HostRuntime) -> io::Result<ExitCode> {
    let mut report = Report::new(rt.alloc());
    for (file, table) in TABLES {
        let text = fs::read_to_string(&rt, file)?;
        add_table(rt.alloc(), &mut report, file, &table, &text)?;
    }
    report.end()?;
    rt.print(report.text())?;
    Ok(report.exit_code())
}
