// Games as SGF text (document 02, No. 10): written without spaces, and the same subset read, token by token, with white space around tokens.
#![tactic(auto)]

mod front;
mod moves;
mod token;
mod value;
mod written;

pub use front::{from_sgf, to_sgf};
