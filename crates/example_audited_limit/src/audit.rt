//! What a history says about permits.
ghost use Rattle.std.specs.Prelude.{◌≡◌, ◌⊎◌, ◌≤◌, ◌+◌};
ghost use Rattle.tower_limit.specs.LineLaws.{grants, one_if_granted, one_if_left, returns};
ghost use Rattle.example_audited_limit.specs.Audit.{IsMost};

use tower_limit::limit::concurrency::{LineReply, LineStep};

/// How many permits were granted, how many came back, and the most that were out at once.
#[derive(Clone, Copy)]
pub struct Audit {
    pub granted: usize,
    pub returned: usize,
    pub most: usize,
}

// Returns, as numbers, whether the entry granted a permit and whether it gave one back.
fn counts(entry: (LineStep, LineReply)) -> (usize, usize)
    ensures granted { result.0 ≡ one_if_granted entry.1 }
    ensures returned { result.1 ≡ one_if_left entry.0 entry.1 }
    ensures small { (result.0 ≤ 1) × (result.1 ≤ 1) }
{
    match entry {
        (_, LineReply::Granted) => (1, 0),
        (LineStep::Release, LineReply::Left) => (0, 1),
        _ => (0, 0),
    }
}

// Returns the most permits that were out at once so far, once `granted` were granted and `returned` came
// back.
fn most_after(most: usize, granted: usize, returned: usize) -> usize
    ensures out { granted ≤ result + returned }
    ensures stays { most ≤ result }
    ensures is { (result ≡ most) ⊎ (granted ≡ result + returned) }
{
    most.max(granted.saturating_sub(returned))
}

/// Computes the three numbers from a history.
pub fn audited(entries: &[(LineStep, LineReply)]) -> Audit
    ensures granted { result.granted ≡ grants entries.now }
    ensures returned { result.returned ≡ returns entries.now }
    ensures most { IsMost result.most entries.now }
{
    let (mut granted, mut returned) = (0usize, 0usize);
    let mut most = 0usize;
    for entry in entries {
        let (out, back) = counts(*entry);
        granted += out;
        returned += back;
        most = most_after(most, granted, returned);
    }
    Audit {
        granted,
        returned,
        most,
    }
}
