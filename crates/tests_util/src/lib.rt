//! Tests of the small services, the maps and the makers at concrete types.
#![tactic(auto)]

#[cfg(test)]
mod closure_service;
#[cfg(test)]
mod either;
#[cfg(test)]
mod make_connection;
#[cfg(test)]
mod make_service;
#[cfg(test)]
mod map_future;
#[cfg(test)]
mod ready;
#[cfg(test)]
mod shared;
