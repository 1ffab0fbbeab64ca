//! Makes the calls of tables, and tells how many answers are those of the tables.
#![tactic(auto)]

mod calls;
mod fault;
mod reading;
mod report;
mod results;
mod table;
mod token;

pub use calls::signed;
pub use fault::Fault;
pub use report::{Report, Tally};
pub use results::{Outcome, bytes, flag, text};
pub use table::{Calls, Table, add_table};
pub use token::Token;
