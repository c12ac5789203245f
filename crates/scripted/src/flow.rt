//! Streams that a script asks for what comes next.
ghost use Rattle.std.specs.Prelude.{◌≡◌};

use crate::report::error_text;
use futures::task::{Poll, Solo};
use std::alloc::{AllocError, Global};
use std::fmt::{Debug, Display};
use std::marker::Model;
use tests_support::run::end;
use tower_base::service::Flow;
use tower_latch::held::{Fact, open};

// The stream may be polled.
struct MayFlow;

impl<F: Flow> Fact<F> for MayFlow {
    ghost holds = { F.can_poll };
}

/// A stream that may be polled.
#[derive(Drop)]
pub struct Flowing<F: Flow> {
    flow: F,
}

impl<F: Flow> Model for Flowing<F> {
    ghost Value = { F };

    ghost view = { λ v. v.flow };

    ghost invariant = { λ v. ∥ F.can_poll v.flow ∥₁ };
}

impl<F: Flow> Flowing<F> {
    pub fn new(flow: F) -> Flowing<F>
        requires { F.can_poll flow }
        ensures { result ≡ flow }
    {
        Flowing { flow }
    }

    pub fn into_inner(self) -> F
        ensures can_poll { F.can_poll result }
        ensures same { result ≡ self }
    {
        let Flowing { flow } = self;
        open::<F, MayFlow>(flow)
    }
}

/// One poll of what is left of a stream, which is dropped at its end: `pending`, `ok V`, an error, `none`, and then `skipped`.
pub fn next<F, A, E>(
    alloc: Global,
    solo: &Solo,
    left: &mut Option<Flowing<F>>,
) -> Result<String, AllocError>
where
    F: Flow<Item = Result<A, E>>,
    A: Display + Drop,
    E: Debug + Display + Drop,
{
    let Some(flowing) = left.take() else {
        return "skipped".to_string(alloc);
    };
    let mut flow = flowing.into_inner();
    let mut cx = solo.begin();
    let answer = flow.flow(&mut cx);
    end(cx, &answer);
    match answer {
        Poll::Pending => {
            *left = Some(Flowing::new(flow));
            "pending".to_string(alloc)
        }
        Poll::Ready(None) => "none".to_string(alloc),
        Poll::Ready(Some(item)) => {
            *left = Some(Flowing::new(flow));
            match item {
                Ok(value) => format!(in alloc; "ok {value}"),
                Err(error) => error_text(alloc, &error),
            }
        }
    }
}
