// What others build on the stores: cases with their outcome in the contract, a kind of cell and a store
// of one's own.
#![tactic(auto)]

mod cases;
mod pixel;
mod single;

pub use cases::{
    burnt_out, given_back, no_cell, renewed, shifted, stamp, write_fused, write_through,
};
pub use pixel::Pixel;
pub use single::Single;
