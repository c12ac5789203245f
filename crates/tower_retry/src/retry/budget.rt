//! Budgets, which limit how many requests may be made again: the Rust's `tower::retry::budget`.
ghost use Rattle.std.specs.Prelude.{Bool, ⊤};

mod budget_core;
mod laws;
mod slots;
mod steps;
pub mod tps_budget;

pub use budget_core::BudgetCore;
pub use laws::law;
pub use steps::{BudgetReply, BudgetStep, Terms};
pub use tps_budget::TpsBudget;

/// A budget from which retries are paid: the Rust's `tower::retry::budget::Budget`. (Its methods take
/// `&self`; here a clock is read.)
pub trait Budget: Drop {
    // A deposit may leave the second value. If left out, it isn't known what is kept of it.
    ghost deposited: { Self → Self → Type 0 } = { λ _ _. ⊤ };

    // A withdrawal may return this answer and leave the second value. If left out, either may be returned.
    ghost withdrew: { Self → Bool → Self → Type 0 } = { λ _ _ _. ⊤ };

    /// Makes a deposit, after a request that needs no retry.
    fn deposit(&mut self)
        ensures { deposited self.old self.new };

    /// Tries to make a withdrawal, before a retry. Returns `true` if the retry may be made.
    fn withdraw(&mut self) -> bool
        ensures { withdrew self.old result self.new };
}
