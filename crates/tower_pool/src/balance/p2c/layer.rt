//! The layer that makes makers of balancers.
ghost use Rattle.std.specs.Prelude.{◌≡◌};

use crate::balance::p2c::make::MakeBalance;
use std::alloc::{AllocError, Global};
use std::marker::{Model, PhantomData};
use tower_base::layer::Layer;

/// A layer that makes a `MakeBalance` from a maker of discoveries, with a clone of the generator: the
/// Rust's `tower::balance::p2c::MakeBalanceLayer`.
#[derive(Drop)]
pub struct MakeBalanceLayer<M, R, Req, K: Clone> {
    rng: R,
    alloc: Global,
    of: PhantomData<(M, K)>,
    request: PhantomData<Req>,
}

impl<M, R, Req, K: Clone> Model for MakeBalanceLayer<M, R, Req, K> {
    ghost Value = { R };

    // The view leaves out `alloc`: it never changes, and has no state.
    ghost view = { λ l. l.rng };

    // `MakeBalance::new` requires it.
    ghost invariant = { λ _. (x y : K) → K.is_clone x y → y ≡ x };
}

impl<M, R, Req, K: Clone> MakeBalanceLayer<M, R, Req, K> {
    /// Creates the layer. Its `layer` returns an error, and drops the maker, if the generator can't be
    /// cloned. Requires that a clone of a key equals the key.
    pub fn new(alloc: Global, rng: R) -> MakeBalanceLayer<M, R, Req, K>
        requires { (x y : K) → K.is_clone x y → y ≡ x }
        ensures { result ≡ rng }
    {
        MakeBalanceLayer {
            rng,
            alloc,
            of: PhantomData,
            request: PhantomData,
        }
    }
}

impl<M: Drop, R: Clone, Req, K: Clone> Layer<M> for MakeBalanceLayer<M, R, Req, K> {
    type Service = MakeBalance<M, R, Req, K>;

    ghost made = { λ rng maker made. R.is_clone rng made.rng × (made.maker ≡ maker) };

    fn layer(&self, maker: M) -> Result<MakeBalance<M, R, Req, K>, AllocError> {
        let rng = self.rng.clone()?;
        Ok(MakeBalance::new(self.alloc, maker, rng))
    }
}

impl<M, R: Clone, Req, K: Clone> Clone for MakeBalanceLayer<M, R, Req, K> {
    ghost is_clone = { R.is_clone };

    fn clone(&self) -> Result<MakeBalanceLayer<M, R, Req, K>, AllocError> {
        Ok(MakeBalanceLayer::new(self.alloc, self.rng.clone()?))
    }
}
