// A site: one reference disk at a server, and the clients that cache it.
#![tactic(auto)]

mod alike;
mod calls;
mod reply;
mod site;
mod slip;

pub use alike::run_both;
pub use calls::Calls;
pub use site::Site;
pub use slip::{Returned, Slip};
