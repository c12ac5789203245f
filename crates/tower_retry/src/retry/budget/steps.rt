//! The steps of a budget, and its replies.
/// A step of a budget, with its moment in nanoseconds.
#[derive(Clone, Copy, Debug, PartialEq, Eq)]
pub enum BudgetStep {
    /// Adds the amount of a deposit.
    Deposit(u64),
    /// Takes the amount of a withdrawal, if the balance reaches it.
    Withdraw(u64),
}

/// The reply of a budget to a step.
#[derive(Clone, Copy, Debug, PartialEq, Eq)]
pub enum BudgetReply {
    /// The reply to a deposit.
    Done,
    /// The reply to a withdrawal: whether it was made.
    Allowed(bool),
}

/// The terms of a budget: the amounts of a deposit and of a withdrawal, the reserve, which is always
/// there, and the length of a generation in nanoseconds.
#[derive(Clone, Copy, Debug, PartialEq, Eq)]
pub struct Terms {
    pub deposit: u64,
    pub withdrawal: u64,
    pub reserve: u128,
    pub window: u64,
}
