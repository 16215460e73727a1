// Hand-typed move lists mended: the leading moves that read as points and are not there already, and the first item that slips, with its
// reason (document 02, No. 12).
#![tactic(auto)]

mod kept;
mod lines;

pub use kept::{Mended, Reason, Slip, mend_list};
pub use lines::write_mended;
