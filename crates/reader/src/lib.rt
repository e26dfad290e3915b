// The reader: seventeen commands on lent memory, transfers, the step and the line switch.
#![tactic(auto)]

mod answers;
mod buffers;
pub mod call;
mod fields;
mod keys;
pub mod memory;
mod notes;
mod origins;
mod pages;
mod parameters;
mod reply;
mod search;
mod table;
mod templates;
mod transfer;
