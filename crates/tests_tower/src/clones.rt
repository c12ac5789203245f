//! Clones of errors. A `Buffer` asks for errors whose clones equal what was cloned: each error of the library has them
//! where its parts have.
ghost use Rattle.std.specs.Prelude.{◌≡◌};

use std::alloc::AllocError;
use std::test::Fail;
use tests_support::checks::Checks;
use tower::limit::concurrency;
use tower::util::{call_all, error};
use tower::{
    balance, buffer, filter, hedge, load, load_shed, ready_cache, reconnect, retry, spawn_ready,
    timeout,
};

// Whether the clone equals the error. It asks for what a `Buffer` asks for.
fn equals<E: Clone + PartialEq + Drop>(error: E) -> Result<bool, AllocError>
    requires { (x y : E) → E.is_clone x y → y ≡ x }
{
    Ok(error.clone()? == error)
}

fn limits<E: Clone + Copy + PartialEq>(inner: E) -> Result<bool, AllocError>
    requires { (x y : E) → E.is_clone x y → y ≡ x }
{
    Ok(
        equals(concurrency::Error::Inner(inner))?
            && equals(load::Error::Inner(inner))?
            && equals(retry::Error::Inner(inner))?
            && equals(timeout::Error::Inner(inner))?
            && equals(load_shed::Error::Inner(inner))?
            && equals(call_all::Error::Inner(inner))?
            && equals(buffer::Error::Inner(inner))?,
    )
}

fn services<E: Clone + Copy + PartialEq>(inner: E) -> Result<bool, AllocError>
    requires { (x y : E) → E.is_clone x y → y ≡ x }
{
    Ok(
        equals(error::future_service::Error::Inner(inner))?
            && equals(error::optional::Error::Inner(inner))?
            && equals(spawn_ready::Error::Inner(inner))?
            && equals(balance::MakeError::Inner(inner))?
            && equals(hedge::Error::Inner(inner))?
            && equals(hedge::delay::Error::Inner(inner))?,
    )
}

fn pairs<E: Clone + Copy + PartialEq, O: Clone + Copy + PartialEq>(
    inner: E,
    other: O,
) -> Result<bool, AllocError>
    requires inner { (x y : E) → E.is_clone x y → y ≡ x }
    requires other { (x y : O) → O.is_clone x y → y ≡ x }
{
    Ok(
        equals::<filter::Error<E, O>>(filter::Error::Rejected(other))?
            && equals::<reconnect::Error<E, O>>(reconnect::Error::Inner(inner))?
            && equals::<balance::Error<E, O>>(balance::Error::Discover(other))?
            && equals::<hedge::select::Error<E, O>>(hedge::select::Error::First(inner))?
            && equals(ready_cache::error::Failed(inner, other))?
            && equals::<ready_cache::error::Error<E, O>>(ready_cache::error::Error::Failed(
                inner, other,
            ))?,
    )
}

// Of three middleware one round another, and of a buffer round them.
fn nested<E: Clone + Copy + PartialEq>(inner: E) -> Result<bool, AllocError>
    requires { (x y : E) → E.is_clone x y → y ≡ x }
{
    let limit = concurrency::Error::Inner(inner);
    let retry = retry::Error::Inner(limit);
    let error = timeout::Error::Inner(retry);
    equals(buffer::Error::Service(buffer::error::ServiceError { error }))
}

#[test]
fn clones_of_errors_equal_them(rt: HostRuntime) -> Result<(), Fail> {
    let checks = Checks::new(rt.alloc());
    checks.holds(limits(7u8)?);
    checks.holds(services(7u8)?);
    checks.holds(pairs(7u8, 9u16)?);
    checks.holds(nested(7u8)?);
    checks.verdict()
}
