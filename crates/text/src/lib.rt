// The text of the program `rows`: its three lines, read in pieces of any size. Document 01, "Sample rows".
#![tactic(auto)]

pub mod reading;
