// The step sheet: lines of five decimal numbers in fixed columns.
#![tactic(auto)]

mod columns;
mod fields;
mod lines;
mod output;
mod reader;
mod text;

pub use columns::{NoRoom, put_number};
pub use fields::{Cause, Field, Place, Refusal};
pub use lines::Line;
pub use output::OutputLine;
pub use reader::{Reader, hands_out_its_own};
