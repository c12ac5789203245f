//! The kinds of answers.
ghost use Rattle.std.specs.Prelude.{◌≡◌, ⊤, ℕ, Result};

/// Says of which kind an answer is, as of which status, or which refusal.
pub trait Kinds<A, E>: Copy {
    // Holds of each value that a service is made with.
    ghost sound: { Self → Type 0 } = { λ _. ⊤ };

    // An answer may be of this kind. If this is left out, nothing is known of its kind.
    ghost of: { Self → Result A E → ℕ → Type 0 } = { λ _ _ _. ⊤ };

    /// Returns the number of the answer's kind. One past 15 counts as 15.
    fn kind(&self, answer: &Result<A, E>) -> u64
        requires { sound self.now }
        ensures { of self.now answer.now result };
}

/// Tells no kinds: each answer is of kind 0.
#[derive(Clone, Copy, Debug, Default, PartialEq, Eq)]
pub struct NoKinds;

impl<A, E> Kinds<A, E> for NoKinds {
    ghost of = { λ _ _ kind. kind ≡ 0 };

    #[inline(always)]
    fn kind(&self, _answer: &Result<A, E>) -> u64 {
        0
    }
}

/// Tells kinds by a closure.
#[derive(Clone, Copy)]
pub struct KindsFn<F> {
    pub f: F,
}

impl<F> KindsFn<F> {
    /// Creates kinds from a closure that returns the number of an answer's kind.
    pub fn new(f: F) -> KindsFn<F>
        ensures { result.f ≡ f }
    {
        KindsFn { f }
    }
}

impl<A, E, F: Fn(&Result<A, E>) -> u64 + Copy> Kinds<A, E> for KindsFn<F> {
    ghost sound = { λ m. F.IsAlwaysCallable m.f };

    ghost of = { λ m answer kind. (asked : _) × (asked.now ≡ answer) × F.post m.f asked kind };

    #[inline(always)]
    fn kind(&self, answer: &Result<A, E>) -> u64 {
        (self.f)(answer)
    }
}
