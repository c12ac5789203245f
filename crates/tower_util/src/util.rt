//! Small services and combinators for services. The Rust's `tower::util`.

mod and_then;
mod chain;
mod closure_service;
mod either;
pub mod error;
mod from_future;
mod fuse;
pub mod future;
mod map_err;
mod map_future;
mod map_request;
mod map_response;
mod map_result;
mod oneshot;
mod optional;
pub mod projection;
mod ready;
mod sealed;
mod then;

pub use and_then::{AndThen, AndThenLayer};
pub use closure_service::{ServiceFn, service_fn};
pub use either::{Either, option_layer};
pub use from_future::{FutureService, future_service};
pub use fuse::Fuse;
pub use map_err::{MapErr, MapErrLayer};
pub use map_future::{MapFuture, MapFutureLayer};
pub use map_request::{MapRequest, MapRequestLayer};
pub use map_response::{MapResponse, MapResponseLayer};
pub use map_result::{MapResult, MapResultLayer};
pub use oneshot::Oneshot;
pub use optional::Optional;
pub use ready::{Ready, ReadyOneshot};
pub use sealed::Sealed;
pub use then::{Then, ThenLayer};
