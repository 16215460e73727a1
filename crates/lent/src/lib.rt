// What every crate does with lent buffers and slices: answers kept in a local buffer and written out whole or refused; parts of a slice.
#![tactic(auto)]

mod lists;
mod slices;

pub use lists::{Kept, hand_out, write_out};
pub use slices::{find, head, tail};
