// What settings and numbers alone decide: the settings record, what comes before a command's row, and whether a data packet goes in.
// No function here is lent memory.
#![tactic(auto)]

pub mod commands;
pub mod settings;
pub mod transfer;
