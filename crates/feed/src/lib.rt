// The move feed (document 02, No. 8): a server tells a thin client its moves over a line that loses, repeats and reorders messages; and two
// held lists are compared. specs/Runs.antt says what a run of the line is, proofs/Runs.antt what holds in every run.
#![tactic(auto)]

mod client;
mod compare;
mod held;
mod message;
mod moves;
mod server;

pub use client::{Client, Taken};
pub use compare::{longer, missing, missing_refusal};
pub use held::take_held;
pub use message::{Answer, Message};
pub use moves::Moves;
pub use server::Server;
