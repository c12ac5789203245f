//! What holds of every line of permits.
ghost use Rattle.tower_latch.specs.Latch.{IsRun};
ghost use Rattle.tower_limit.specs.Line.{LineSteps};
ghost use Rattle.tower_limit.specs.LineCore.{StandsFor};
ghost use Rattle.tower_limit.specs.LineHistory.{BoundedHistory};
ghost use Rattle.tower_limit.specs.LineLaws.{Always, Bounded, InOrder, Lasts, Counts};

/// States what holds of every list of steps and replies from the empty line: never more than `max`
/// permits are out, they are granted in the order of requests, and none is lost. What a `LineCore`
/// serves is such a list, and so is the history of a line that ran under a log.
pub fn law()
    ensures follows { IsRun StandsFor LineSteps }
    ensures bounded { Always Bounded }
    ensures in_order { Always InOrder }
    ensures lasts { Always Lasts }
    ensures counts { Always Counts }
    ensures history { BoundedHistory }
{}
