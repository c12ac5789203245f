//! The layers of the filters.
ghost use Rattle.std.specs.Prelude.{◌≡◌};
ghost use Rattle.tower_ware.specs.Filter.{Made};

use crate::filter::{AsyncFilter, Filter};
use std::alloc::AllocError;
use std::marker::Model;
use tower_base::layer::Layer;

/// A layer that wraps a service in a `Filter` with a clone of the predicate: the Rust's
/// `tower::filter::FilterLayer`.
#[derive(Drop)]
pub struct FilterLayer<U> {
    predicate: U,
}

impl<U> Model for FilterLayer<U> {
    ghost Value = { U };

    ghost view = { λ l. l.predicate };
}

impl<U> FilterLayer<U> {
    /// Creates a layer with the predicate.
    ///
    /// `layer` returns an error and drops the service if cloning the predicate fails.
    pub fn new(predicate: U) -> FilterLayer<U>
        ensures { result ≡ predicate }
    {
        FilterLayer { predicate }
    }
}

impl<S: Drop, U: Clone + Drop> Layer<S> for FilterLayer<U> {
    type Service = Filter<S, U>;

    ghost made = { Made U.is_clone };

    fn layer(&self, service: S) -> Result<Filter<S, U>, AllocError> {
        let predicate = self.predicate.clone()?;
        Ok(Filter::new(service, predicate))
    }
}

impl<U: Clone> Clone for FilterLayer<U> {
    ghost is_clone = { U.is_clone };

    ghost is_infallible = { U.is_infallible };

    fn clone(&self) -> Result<FilterLayer<U>, AllocError> {
        Ok(FilterLayer::new(self.predicate.clone()?))
    }
}

/// A layer that wraps a service in an `AsyncFilter` with a clone of the predicate: the Rust's
/// `tower::filter::AsyncFilterLayer`.
#[derive(Drop)]
pub struct AsyncFilterLayer<U> {
    predicate: U,
}

impl<U> Model for AsyncFilterLayer<U> {
    ghost Value = { U };

    ghost view = { λ l. l.predicate };
}

impl<U> AsyncFilterLayer<U> {
    /// Creates a layer with the predicate.
    ///
    /// `layer` returns an error and drops the service if cloning the predicate fails.
    pub fn new(predicate: U) -> AsyncFilterLayer<U>
        ensures { result ≡ predicate }
    {
        AsyncFilterLayer { predicate }
    }
}

impl<S: Drop, U: Clone + Drop> Layer<S> for AsyncFilterLayer<U> {
    type Service = AsyncFilter<S, U>;

    ghost made = { Made U.is_clone };

    fn layer(&self, service: S) -> Result<AsyncFilter<S, U>, AllocError> {
        let predicate = self.predicate.clone()?;
        Ok(AsyncFilter::new(service, predicate))
    }
}

impl<U: Clone> Clone for AsyncFilterLayer<U> {
    ghost is_clone = { U.is_clone };

    ghost is_infallible = { U.is_infallible };

    fn clone(&self) -> Result<AsyncFilterLayer<U>, AllocError> {
        Ok(AsyncFilterLayer::new(self.predicate.clone()?))
    }
}
