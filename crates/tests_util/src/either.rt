//! `Either` and `option_layer`.

use std::alloc::AllocError;
use std::test::Fail;
use tests_support::checks::Checks;
use tower_base::layer::{Identity, Layer, layer_fn};
use tower_util::util::{Either, MapResponseLayer, option_layer};

#[test]
fn copy_is_of_its_side(rt: HostRuntime) {
    let bytes: Either<u8, u16> = Either::Left(3);
    let copy = bytes;
    assert!(rt; matches!((bytes, copy), (Either::Left(3), Either::Left(3))));
}

#[test]
fn option_layer_wraps_where_there_is_one(rt: HostRuntime) -> Result<(), Fail> {
    let checks = Checks::new(rt.alloc());
    let times_ten = layer_fn(|x: u32| -> Result<u32, AllocError> { Ok(x.wrapping_mul(10)) });
    checks.holds(matches!(option_layer(Some(times_ten)).layer(4)?, Either::Left(40)));
    let none = option_layer(None::<MapResponseLayer<u8>>);
    checks.holds(matches!(none.layer(4u32)?, Either::Right(4)));
    let refusing = layer_fn(|_x: u32| -> Result<u32, AllocError> { Err(AllocError) });
    checks.holds(option_layer(Some(refusing)).layer(4).is_err());
    let right = Either::<Identity, _>::Right(refusing);
    checks.holds(right.layer(4).is_err());
    checks.verdict()
}
