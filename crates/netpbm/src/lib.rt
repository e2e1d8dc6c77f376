// Drawings in and drafts out, in two formats of Netpbm: a plain PGM is read, a raw PBM is written.
#![tactic(auto)]

mod codes;
mod decimal;
mod digits;
mod fault;
mod head;
mod header;
mod laws;
mod number;
mod packing;
mod raster;
mod reading;
mod samples;
mod separator;

pub use fault::Fault;
pub use laws::{every_drawing_is_read, every_square_has_its_bit};
pub use packing::pack;
pub use reading::{Picture, read_pgm};
