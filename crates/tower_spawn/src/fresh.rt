//! What the channel of a spawner carries.
ghost use Rattle.std.specs.Prelude.{◌≡◌};

use futures::future::Future;
use tower_latch::held::{Fact, open};

/// A future that no task polls yet. Its type keeps that it may be polled.
#[derive(Drop)]
pub struct Fresh<F: Future> {
    future: F,
    ghost can_poll: { ∥ F.can_poll future ∥₁ },
}

// The fact that the future may be polled.
struct MayRun;

impl<F: Future> Fact<F> for MayRun {
    ghost holds = { F.can_poll };
}

impl<F: Future> Fresh<F> {
    pub fn new(future: F) -> Fresh<F>
        requires { F.can_poll future }
        ensures { result.future ≡ future }
    {
        Fresh { future }
    }

    pub fn into_inner(self) -> F
        ensures can_poll { F.can_poll result }
        ensures same { result ≡ self.future }
    {
        let Fresh { future } = self;
        open::<F, MayRun>(future)
    }
}
