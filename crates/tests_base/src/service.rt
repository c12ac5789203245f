//! Fractions.

use tower_base::service::Fraction;

#[test]
fn fraction_fits_where_its_divisor_is_not_zero(rt: HostRuntime) {
    assert!(rt; !Fraction::fits(1, 0));
    assert!(rt; Fraction::fits(0, 1));
    let half = Fraction::new(1, 2);
    assert_eq!(rt; (half.numerator, half.divisor), (1, 2));
}
