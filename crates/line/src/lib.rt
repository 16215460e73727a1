// Lines by value: what line.rs and bits.rs answer, with the refusals. The masks that answer it are those of `masks`.
#![tactic(auto, unfolding(rules::specs::Answers::answer, rules::specs::Refusals::first, rules::specs::Refusals::unless))]

mod bits;
mod line;

pub use bits::set_bits;
pub use line::Line;
