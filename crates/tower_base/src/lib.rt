//! Services, layers and whole runs of services.
#![tactic(auto)]

pub mod counter;
pub mod drive;
pub mod iterations;
pub mod layer;
pub mod links;
pub mod run;
pub mod service;
pub mod util;
