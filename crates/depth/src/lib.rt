// How deep a strict question goes (document 02, No. 14). A cycle of calls of its own, on lent lines in place as the referee's is: the
// referee asks for no depth, and stays as fast as it is.
#![tactic(auto)]

mod cycle;
mod front;
mod look;

pub use front::{DepthAnswer, depth, depth_of, strict_depth_of};
