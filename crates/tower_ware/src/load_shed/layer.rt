//! The layer of `LoadShed`.
ghost use Rattle.std.specs.Prelude.{◌≡◌};
ghost use Rattle.tower_ware.specs.LoadShed.{initial};

use crate::load_shed::LoadShed;
use std::alloc::AllocError;
use tower_base::layer::Layer;

/// A layer that wraps a service in a `LoadShed`: the Rust's `tower::load_shed::LoadShedLayer`. It allocates
/// nothing.
#[derive(Clone, Copy, Debug, Default, PartialEq, Eq)]
pub struct LoadShedLayer;

impl LoadShedLayer {
    /// Creates a `LoadShedLayer`.
    pub fn new() -> LoadShedLayer {
        LoadShedLayer
    }
}

impl<S> Layer<S> for LoadShedLayer {
    type Service = LoadShed<S>;

    ghost made = { λ _ inner shed. shed ≡ initial inner };

    fn layer(&self, service: S) -> Result<LoadShed<S>, AllocError> {
        Ok(LoadShed::new(service))
    }
}
