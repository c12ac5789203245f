//! What the error of a stack says: which middleware refused, or what the service's own error is.
ghost use Rattle.tower.specs.Refusal.{own};

use std::convert::Infallible;
use std::io;
use tower::limit::concurrency;
use tower::{Cause, Refusal, StackError, filter, hedge, load_shed, reconnect, timeout};

/// The error of a service. It ends the chain.
#[derive(Clone, Copy, Debug, thiserror::Error)]
#[error("lost {0}")]
pub struct Lost(u32);

impl StackError for Lost {
    type ServiceError = Lost;

    ghost cause = { own };

    fn cause(&self) -> Cause<&Lost> {
        Cause::Service(self)
    }
}

type Shed<E> = load_shed::Error<E>;

type Late = timeout::Error<concurrency::Error<Lost>>;

type Sides = hedge::select::Error<
    filter::Error<Lost, Infallible>,
    reconnect::Error<Lost, Infallible>,
>;

/// Tells where an error comes from, whatever the stack.
fn tell_cause<R, E>(rt: R, error: &E) -> io::Result<()>
where
    R: Print + Copy,
    E: StackError<ServiceError = Lost>,
{
    match error.cause() {
        Cause::Refused(Refusal::Overloaded) => println!(rt; "refusal: come back later"),
        Cause::Refused(refusal) => println!(rt; "refusal: {refusal}"),
        Cause::Service(Lost(page)) => println!(rt; "no refusal: page {page} is lost"),
    }
}

/// Tells errors of two stacks apart.
pub fn tell_apart<R: Print + Copy>(rt: R) -> io::Result<()> {
    let inner: Shed<Late> = Shed::Inner(Late::Inner(concurrency::Error::Inner(Lost(7))));
    if let Some(Lost(page)) = inner.service_error() {
        println!(rt; "no refusal: page {page} is lost")?;
    }
    tell_cause(rt, &Shed::<Late>::Overloaded)?;
    tell_cause(rt, &Shed::Inner(Late::Elapsed))?;
    tell_cause(rt, &Sides::First(filter::Error::Inner(Lost(8))))?;
    tell_cause(rt, &Sides::Second(reconnect::Error::Memory))
}

/// Prints each refusal.
pub fn list<R: Print + Copy>(rt: R) -> io::Result<()> {
    for refusal in [
        Refusal::Elapsed,
        Refusal::Overloaded,
        Refusal::Closed,
        Refusal::Rejected,
        Refusal::Make,
        Refusal::Discover,
        Refusal::NoService,
        Refusal::Gone,
        Refusal::NotSpawned,
        Refusal::Memory,
    ] {
        println!(rt; "{refusal:?}: {refusal}")?;
    }
    Ok(())
}
