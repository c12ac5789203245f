//! The futures of these services. The Rust's `tower::util::future`.

pub use crate::util::and_then::AndThenFuture;
pub use crate::util::either::EitherResponseFuture;
pub use crate::util::from_future::FutureServiceFuture;
pub use crate::util::map_err::MapErrFuture;
pub use crate::util::map_response::MapResponseFuture;
pub use crate::util::map_result::MapResultFuture;
pub use crate::util::optional::future as optional;
pub use crate::util::then::ThenFuture;
