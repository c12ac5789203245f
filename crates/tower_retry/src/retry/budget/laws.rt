//! The law of every budget.
ghost use Rattle.tower_latch.specs.Latch.{IsRun};
ghost use Rattle.tower_retry.specs.Budget.{Steps};
ghost use Rattle.tower_retry.specs.BudgetBound.{BoundedAtLatch, BoundedInHistory, RetriesBounded};
ghost use Rattle.tower_retry.specs.BudgetCore.{StandsFor, SumsKept};
ghost use Rattle.tower_retry.specs.BudgetHistory.{AnsweredBySums};
ghost use Rattle.tower_retry.specs.BudgetTerms.{RunsFromTerms};
ghost use Rattle.tower_retry.specs.BudgetWindows.{CountsForTenWindows};

/// States what holds of every list of steps, whatever the gaps between them, even past ten windows or if
/// the clock goes back.
///
/// Whatever a `BudgetCore` serves is a run of its machine, and what it keeps is the sum of the amounts
/// that count, as long as such sums are exact in 128 bits. In the history of a budget that ran under a
/// log, each withdrawal is then decided by the sum of the entries before it. What a latch gives belongs to
/// a run from a new budget with the latch's terms.
///
/// While readings never go back, a deposit counts at every moment up to ten windows after it, and at none
/// from eleven windows on. So whenever a retry is allowed, it and the retries of the ten windows before it
/// cost at most the reserve and what the successes of the last eleven windows brought: over every run of
/// small amounts in fewer than 2^80 steps, at each latch with these terms, and in the history of a log.
pub fn law()
    ensures follows { IsRun StandsFor Steps }
    ensures sums { SumsKept }
    ensures history { AnsweredBySums }
    ensures windows { CountsForTenWindows }
    ensures terms { RunsFromTerms }
    ensures bounded { RetriesBounded }
    ensures latch { BoundedAtLatch }
    ensures log { BoundedInHistory }
{}
