// From a sheet's bytes to the steps of a run, and from a run's answers to the printed bytes.
#![tactic(auto)]

mod printing;
mod reading;

pub use printing::print;
pub use reading::{Script, read_script};
