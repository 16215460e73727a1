// The archive's exports: each function of `renju` under the C calling convention, for callers in C and in Rust. An export has the name, the
// parameters and the clauses of the function that it calls. The two are apart because no crate can depend on a static library, and the
// replay programs call these functions too.
#![tactic(auto)]

mod canonical_form;
mod changes;
mod counted;
mod depths;
mod feeds;
mod games;
mod hints;
mod listed;
mod masked;
mod mended;
mod saved;
mod second_referee;
mod sgf_texts;
mod tagged;
mod texts;
mod verdicts;
mod version;
mod views;
