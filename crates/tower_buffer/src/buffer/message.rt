//! A message that is still known by its id.
ghost use Rattle.std.specs.Prelude.{◌≡◌};
ghost use Rattle.tower_buffer.specs.Messages.{bare, taken_by};

/// What became of a message.
#[derive(Drop)]
pub enum Fate<F> {
    /// It has no outcome yet.
    Open,
    /// It was answered with this future.
    Answered(F),
    /// The service failed.
    Failed,
    /// Nobody waits for it any more.
    Cancelled,
    /// The worker went away.
    Lost,
}

/// A message that is kept under its id. It has its request while it is queued.
#[derive(Drop)]
pub struct Message<Request, F> {
    pub request: Option<Request>,
    pub fate: Fate<F>,
}

impl<F> Fate<F> {
    // Returns the fate without its future.
    pub(crate) fn bare(&self) -> Fate<()>
        ensures { result ≡ bare self.now }
    {
        match self {
            Fate::Open => Fate::Open,
            Fate::Answered(_) => Fate::Answered(()),
            Fate::Failed => Fate::Failed,
            Fate::Cancelled => Fate::Cancelled,
            Fate::Lost => Fate::Lost,
        }
    }
}

impl<Request, F> Message<Request, F> {
    // Returns whether someone still waits, if the worker holds the message unsettled, and otherwise
    // `None`.
    pub(crate) fn taken(&self) -> Option<bool>
        ensures { result ≡ taken_by self.now.request self.now.fate }
    {
        match (&self.request, &self.fate) {
            (None, Fate::Open) => Some(true),
            (None, Fate::Cancelled) => Some(false),
            _ => None,
        }
    }
}
