//! Layers, which wrap a service in another. The Rust's `tower_layer`.
ghost use Rattle.std.specs.Prelude.{◌≡◌, ⊤, IfOk, Ok};

use std::alloc::AllocError;
use std::marker::Model;

/// A layer, which wraps a service in another one.
pub trait Layer<S> {
    type Service;

    // The layer may be applied to the service s.
    ghost can_layer: { Self → S → Type 0 } = { λ _ _. ⊤ };

    // From the service s the layer may make t.
    ghost made: { Self → S → Self.Service → Type 0 };

    /// Wraps the service. Returns an error only if allocation fails; the service is dropped then.
    fn layer(&self, service: S) -> Result<Self::Service, AllocError>
        requires { can_layer self.now service }
        ensures { IfOk result (λ t. made self.now service t) };
}

/// A layer that returns the service unchanged. It is the Rust's `tower::layer::util::Identity`.
#[derive(Clone, Copy, Debug, Default, PartialEq, Eq)]
pub struct Identity;

impl Identity {
    /// Creates the layer. Neither this nor its `layer` allocates.
    pub fn new() -> Identity {
        Identity
    }
}

impl<S> Layer<S> for Identity {
    type Service = S;

    ghost made = { λ l s t. t ≡ s };

    fn layer(&self, service: S) -> Result<S, AllocError> {
        Ok(service)
    }
}

/// Two layers: the inner one is applied first, and the outer one to the resulting service. It is the
/// Rust's `tower::layer::util::Stack`.
#[derive(Clone, Drop)]
pub struct Stack<Inner, Outer> {
    inner: Inner,
    outer: Outer,
}

impl<Inner, Outer> Stack<Inner, Outer> {
    /// Combines two layers. `inner` is applied first.
    pub fn new(inner: Inner, outer: Outer) -> Stack<Inner, Outer>
        ensures { result ≡ record { inner = inner; outer = outer } }
    {
        Stack { inner, outer }
    }
}

impl<S, Inner: Layer<S>, Outer: Layer<Inner::Service>> Layer<S> for Stack<Inner, Outer> {
    type Service = Outer::Service;

    ghost can_layer = { λ l s. Inner.can_layer l.inner s
        × ((u : _) → Inner.made l.inner s u → Outer.can_layer l.outer u) };

    ghost made = { λ l s t. (u : _) × Inner.made l.inner s u × Outer.made l.outer u t };

    fn layer(&self, service: S) -> Result<Outer::Service, AllocError> {
        let inner = self.inner.layer(service)?;
        self.outer.layer(inner)
    }
}

/// A layer that calls a closure: the Rust's `tower::layer::LayerFn`. The closure returns an error only
/// if allocation fails.
#[derive(Clone, Copy, Drop)]
pub struct LayerFn<F> {
    f: F,
}

impl<F> Model for LayerFn<F> {
    ghost Value = { F };

    ghost view = { λ p. p.f };

    ghost inverse = { λ v. record { f = v } };
}

/// Creates a layer that calls the closure with the service. It is the Rust's `tower::layer::layer_fn`.
pub fn layer_fn<F>(f: F) -> LayerFn<F>
    ensures { result ≡ f }
{
    LayerFn { f }
}

impl<F, S, Out> Layer<S> for LayerFn<F>
where
    F: Fn(S) -> Result<Out, AllocError>,
{
    type Service = Out;

    ghost can_layer = { F.pre };

    ghost made = { λ l s t. F.post l s (Ok t) };

    fn layer(&self, service: S) -> Result<Out, AllocError> {
        (self.f)(service)
    }
}
