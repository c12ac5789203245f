//! The pickers of `Steer`.
ghost use Rattle.std.specs.Prelude.{◌≡◌, ◌<◌, ⊤, ℕ, List, length};

/// A picker, which chooses a service for a request: the Rust's `tower::steer::Picker`. The index that it
/// returns is inside the list.
pub trait Picker<S, Req>: Drop {
    // Holds after construction and is preserved by every pick.
    ghost sound: { Self → Type 0 } = { λ _. ⊤ };

    // A pick for the request among the services may return the index and leave the last value. If left
    // out, any service of the list may be picked.
    ghost picked: { Self → Req → List S → ℕ → Self → Type 0 } = { λ _ _ _ _ _. ⊤ };

    /// Returns the index of the service to call.
    fn pick(&mut self, request: &Req, services: &[S]) -> usize
        requires sound { sound self.old }
        requires some { 0 < length services.now }
        ensures sound { sound self.new }
        ensures inside { result < length services.now }
        ensures picked { picked self.old request.now services.now result self.new };
}

/// A picker that calls a closure. In the Rust the closure itself is a picker.
///
/// The closure may be called with any list that isn't empty, and returns an index inside the list.
#[derive(Clone, Copy, Drop)]
pub struct PickerFn<F> {
    pub f: F,
}

impl<F> PickerFn<F> {
    /// Creates a picker from a closure that returns the index of a service in the list.
    pub fn new(f: F) -> PickerFn<F>
        ensures { result.f ≡ f }
    {
        PickerFn { f }
    }
}

impl<S, Req, F: Fn(&Req, &[S]) -> usize + Copy + Drop> Picker<S, Req> for PickerFn<F> {
    ghost sound = { λ m. ((request : _) (services : _) → 0 < length services.now
        → F.pre m.f request services)
        × ((request : _) (services : _) (index : ℕ) → 0 < length services.now
        → F.post m.f request services index → index < length services.now) };

    ghost picked = { λ old request services index new. (new ≡ old)
        × ((asked : _) × (list : _) × (asked.now ≡ request) × (list.now ≡ services)
        × F.post old.f asked list index) };

    fn pick(&mut self, request: &Req, services: &[S]) -> usize {
        (self.f)(request, services)
    }
}
