//! Utilities that the libraries share.
pub mod rng;
