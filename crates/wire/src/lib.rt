// Packets on the wire: sums, the finder, the builder. Slices in, slices out; nothing is kept.
#![tactic(auto)]

pub mod builder;
pub mod bytes;
pub mod finder;
