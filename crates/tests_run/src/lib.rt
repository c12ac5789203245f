//! Tests of the program `tower-run`, called as a function: its rows, files that fail, and storms behind a gate.
#![tactic(auto)]

#[cfg(test)]
mod files;
#[cfg(test)]
mod rows;
#[cfg(test)]
mod storms;
