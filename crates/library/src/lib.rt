// The library in lent memory: the index's bits, the templates' pages, and the search for a page.
#![tactic(auto)]

pub mod index;
pub mod pages;
pub mod search;
