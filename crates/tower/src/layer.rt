//! Layers, which make a service from another: the Rust's `tower::layer`.

pub use tower_base::layer::{Layer, LayerFn, layer_fn};

/// The layer that changes nothing, and a stack of two layers: the Rust's `tower::layer::util`.
pub mod util {
    pub use tower_base::layer::{Identity, Stack};
}
