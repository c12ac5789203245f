//! What a running stack does: counts of what passes, and lines for a log. The Rust has none of it.
ghost use Rattle.std.specs.Prelude.{◌≡◌};
ghost use Rattle.tower.specs.RefusalKinds.{kind_of, refusal_kind};

pub use tower_meter::{
    BOUNDS, BUCKETS, Bounds, CONTENT_TYPE, KINDS, Kinds, KindsFn, Meter, MeterCore, MeterLayer,
    MeterReply, MeterStep, Metered, Named, NoKinds, NotGrowing, Reading, ResponseFuture, Text,
    Trace, Traced, TracedFuture, TracedLayer, laws,
};
use tower_refusal::{Refusal, StackError};

/// The names of the kinds of `RefusalKinds`, from kind 0 on.
pub const REFUSAL_KINDS: [&'static str; 12] = [
    "ok",
    "own",
    "elapsed",
    "overloaded",
    "closed",
    "rejected",
    "make",
    "discover",
    "no_service",
    "gone",
    "not_spawned",
    "memory",
];

/// The kinds of a stack's answers: 0 is `Ok`, 1 the service's own error, and each `Refusal` has one of its
/// own, as `REFUSAL_KINDS` names them.
#[derive(Clone, Copy, Debug, Default, PartialEq, Eq)]
pub struct RefusalKinds;

// The kind of a refusal.
fn kind_of_refusal(refusal: Refusal) -> u64
    ensures { result ≡ refusal_kind refusal }
{
    match refusal {
        Refusal::Elapsed => 2,
        Refusal::Overloaded => 3,
        Refusal::Closed => 4,
        Refusal::Rejected => 5,
        Refusal::Make => 6,
        Refusal::Discover => 7,
        Refusal::NoService => 8,
        Refusal::Gone => 9,
        Refusal::NotSpawned => 10,
        Refusal::Memory => 11,
    }
}

impl<A, E: StackError> Kinds<A, E> for RefusalKinds {
    ghost of = { λ _ answer kind. kind ≡ kind_of E.cause answer };

    fn kind(&self, answer: &Result<A, E>) -> u64 {
        match answer {
            Ok(_) => 0,
            Err(error) => match error.refusal() {
                None => 1,
                Some(refusal) => kind_of_refusal(refusal),
            },
        }
    }
}
