// The records of a site: what a client knows of each cell, who holds the session, and why a site refuses.
#![tactic(auto)]

pub mod events;
pub mod fault;
pub mod records;
pub mod table;
