//! Waits between retries: the Rust's `tower::retry::backoff`.
ghost use Rattle.std.specs.Prelude.{◌≡◌, ◌<◌, ◌+◌, ◌^◌, ⊤, IfOk, Result, nat_eq};
ghost use Rattle.tower_retry.specs.Backoff.{Begins, IsClone, Jitters, ExponentialBackoffMakerView, Made, ExponentialBackoffView, base_of, new_maker};
ghost use Rattle.std.specs.declared.alloc.AllocError.{AllocError};
ghost use Rattle.tower_base.specs.Rng.{New};

use std::alloc::AllocError;
use std::marker::Model;
use tower_base::service::{Clock, Fraction, Sleep, Steps};
use tower_base::util::rng::{HasherRng, Rng};

mod invalid;

pub use invalid::InvalidBackoff;

/// A maker of backoffs, one for each request that may be retried: the Rust's
/// `tower::retry::backoff::MakeBackoff`.
pub trait MakeBackoff: Drop {
    /// The backoff that it creates.
    type Backoff: Backoff;

    // Holds after construction and is preserved by every call.
    ghost sound: { Self → Type 0 } = { λ _. ⊤ };

    // A call may return this result and leave the second value. If left out, any backoff may be returned.
    ghost made: { Self → Result Self.Backoff AllocError → Self → Type 0 } = { λ _ _ _. ⊤ };

    /// Returns a backoff that begins with the first wait. Returns an error only if allocation fails;
    /// then the maker is unchanged.
    fn make_backoff(&mut self) -> Result<Self::Backoff, AllocError>
        requires { sound self.old }
        ensures made { made self.old result self.new }
        ensures backoff { IfOk result Self.Backoff.sound }
        ensures sound { sound self.new };
}

/// A sequence of waits: the Rust's `tower::retry::backoff::Backoff`.
pub trait Backoff: Drop {
    /// A wait.
    type Future: Steps<Output = ()>;

    // Holds of each backoff that a maker returns and is preserved by every call.
    ghost sound: { Self → Type 0 } = { λ _. ⊤ };

    // A call may return this wait and leave the second value. If left out, any wait may be returned.
    ghost begins: { Self → Self.Future → Self → Type 0 } = { λ _ _ _. ⊤ };

    /// Returns the next wait.
    fn next_backoff(&mut self) -> Self::Future
        requires { sound self.old }
        ensures begins { begins self.old result self.new }
        ensures can_poll { Self.Future.can_poll result }
        ensures sound { sound self.new };
}

/// A maker of backoffs that double their wait each time: the Rust's
/// `tower::retry::backoff::ExponentialBackoffMaker`.
///
/// Each backoff has a clone of the random generator, which draws the same words as the maker's, and a
/// share of the clock.
#[derive(Drop)]
pub struct ExponentialBackoffMaker<R, C> {
    min: u64,
    max: u64,
    jitter: Fraction,
    rng: R,
    clock: C,
}

/// A backoff that doubles its wait each time, up to a maximum, and adds jitter to each wait: the Rust's
/// `tower::retry::backoff::ExponentialBackoff`.
#[derive(Drop)]
pub struct ExponentialBackoff<R, C> {
    maker: ExponentialBackoffMaker<R, C>,
    iterations: u32,
}

impl<R, C> Model for ExponentialBackoffMaker<R, C> {
    ghost Value = { ExponentialBackoffMakerView R C };

    ghost view = { λ maker. record {
      least = maker.min;
      most = maker.max;
      jitter = maker.jitter;
      rng = maker.rng;
      clock = maker.clock;
    } };
}

impl<R, C> Model for ExponentialBackoff<R, C> {
    ghost Value = { ExponentialBackoffView R C };

    ghost view = { λ backoff. record { maker = backoff.maker; count = backoff.iterations } };
}

impl<R: Rng, C: Clock> ExponentialBackoffMaker<R, C> {
    /// Creates a maker. `min` and `max` are in nanoseconds, and `jitter` is the greatest part of a wait
    /// that is added to it.
    ///
    /// Returns an error if `max` is below `min`, if `max` is 0, or if `jitter` is above 100, tested in
    /// this order, and drops the generator and the clock.
    pub fn new(
        min: u64,
        max: u64,
        jitter: Fraction,
        rng: R,
        clock: C,
    ) -> Result<ExponentialBackoffMaker<R, C>, InvalidBackoff>
        ensures { result ≡ new_maker
            (record { least = min; most = max; jitter = jitter; rng = rng; clock = clock }) }
    {
        if min > max {
            return Err(InvalidBackoff::MaximumBelowMinimum);
        }
        if max == 0 {
            return Err(InvalidBackoff::MaximumIsZero);
        }
        if jitter.numerator as u64 > 100 * jitter.divisor as u64 {
            return Err(InvalidBackoff::JitterAbove100);
        }
        Ok(ExponentialBackoffMaker {
            min,
            max,
            jitter,
            rng,
            clock,
        })
    }
}

impl<C: Clock> ExponentialBackoffMaker<HasherRng, C> {
    /// Creates a maker of waits from 50 milliseconds up to `u64::MAX` nanoseconds, with a jitter of
    /// 99/100: the Rust's `default`.
    pub fn with_clock(clock: C) -> ExponentialBackoffMaker<HasherRng, C>
        ensures least { result.least ≡ 50000000 }
        ensures most { result.most ≡ u64.MAX }
        ensures numerator { result.jitter.numerator ≡ 99 }
        ensures divisor { result.jitter.divisor ≡ 100 }
        ensures rng { New result.rng }
        ensures clock { result.clock ≡ clock }
    {
        ExponentialBackoffMaker {
            min: 50_000_000,
            max: u64::MAX,
            jitter: Fraction::new(99, 100),
            rng: HasherRng::new(),
            clock,
        }
    }
}

impl<R: Rng + Clone, C: Clock> MakeBackoff for ExponentialBackoffMaker<R, C> {
    type Backoff = ExponentialBackoff<R, C>;

    ghost made = { Made R.Clone C.Clock };

    fn make_backoff(&mut self) -> Result<ExponentialBackoff<R, C>, AllocError> {
        Ok(ExponentialBackoff {
            maker: self.clone()?,
            iterations: 0,
        })
    }
}

impl<R: Rng, C: Clock> ExponentialBackoff<R, C> {
    fn base(&self) -> u64
        ensures { result ≡ base_of self.now }
    {
        let factor = 2u32.saturating_pow(self.iterations);
        let wait = self.maker.min as u128 * factor as u128;
        wait.min(self.maker.max as u128) as u64
    }

    fn jitter(&mut self, base: u64) -> u64
        requires { base ≡ base_of self.old }
        ensures jitters { Jitters R.Rng (nat_eq self.old.maker.jitter.numerator 0)
            self.old result self.new }
        ensures fits { base + result < 2 ^ 64 }
        ensures same { self.new
            ≡ record self.old { maker = record self.old.maker { rng = self.new.maker.rng } } }
    {
        let jitter = self.maker.jitter;
        let room = self.maker.max - base;
        if jitter.numerator == 0 {
            return 0;
        }
        let part = self.maker.rng.next_u64() >> 11;
        let share = base as u128 * part as u128 / (1 << 53);
        let wanted = share * jitter.numerator as u128 / jitter.divisor as u128;
        wanted.min(room as u128) as u64
    }
}

impl<R: Rng, C: Clock> Backoff for ExponentialBackoff<R, C> {
    type Future = Sleep<C>;

    ghost begins = { Begins R.Rng C.Clock };

    /// Returns the next wait. Draws one word, or none if the jitter is 0, and then reads a share of the
    /// clock once.
    fn next_backoff(&mut self) -> Sleep<C> {
        let base = self.base();
        let wait = base + self.jitter(base);
        self.iterations = self.iterations.saturating_add(1);
        Sleep::new(self.maker.clock.share(), wait)
    }
}

impl<R: Clone, C: Clock> Clone for ExponentialBackoffMaker<R, C> {
    ghost is_clone = { IsClone R.Clone C.Clock };

    ghost is_infallible = { λ maker. R.is_infallible maker.rng };

    fn clone(&self) -> Result<Self, AllocError> {
        Ok(ExponentialBackoffMaker {
            min: self.min,
            max: self.max,
            jitter: self.jitter,
            rng: self.rng.clone()?,
            clock: self.clock.share(),
        })
    }
}

impl<R: Clone, C: Clock> Clone for ExponentialBackoff<R, C> {
    ghost is_clone = { λ old new. IsClone R.Clone C.Clock old.maker new.maker
        × (new.count ≡ old.count) };

    ghost is_infallible = { λ backoff. R.is_infallible backoff.maker.rng };

    fn clone(&self) -> Result<Self, AllocError> {
        Ok(ExponentialBackoff {
            maker: self.maker.clone()?,
            iterations: self.iterations,
        })
    }
}
