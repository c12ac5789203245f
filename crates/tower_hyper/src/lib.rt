//! `tower` under the kit's `hyper`: a service of `tower` that answers the requests of a connection, and the
//! sending end of a connection as a service of `tower`.
#![tactic(auto)]

pub mod client;
pub mod service;
