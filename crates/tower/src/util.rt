//! Small services and combinators: the Rust's `tower::util`.

mod ext;
pub mod runs;
mod waiter;
mod waits;

pub use ext::{BlockOnExt, ServiceExt};
pub use runs::block_on_each_within_rate;
pub use tower_base::util::rng;
pub use tower_util::util::{
    AndThen, AndThenLayer, Either, FutureService, MapErr, MapErrLayer, MapFuture, MapFutureLayer,
    MapRequest, MapRequestLayer, MapResponse, MapResponseLayer, MapResult, MapResultLayer, Oneshot,
    Optional, Ready, ReadyOneshot, Sealed, ServiceFn, Then, ThenLayer, error, future,
    future_service, option_layer, projection, service_fn,
};
pub use tower_ware::util::call_all;
pub use tower_ware::util::call_all::{CallAll, CallAllUnordered};
pub use waiter::Waiter;
pub use waits::{block_on, block_on_call, block_on_each, block_on_ready};
