// Stores of cells, whatever they stand on: a row of lent cells, an image on lent bytes, a window and a
// fuse over any store, held by value or by `&mut`.
#![tactic(auto)]

mod cell;
mod fuse;
mod image;
mod lent;
mod life;
mod row;
mod store;
mod window;

pub use cell::{Cell, Sector};
pub use fuse::Fuse;
pub use image::Image;
pub use life::{Fault, Life};
pub use row::Row;
pub use store::Store;
pub use window::Window;
