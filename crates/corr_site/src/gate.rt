//! Where a thread of a run may be held up for a while, as a test of schedules wants.

/// What an actor of a run does.
#[derive(Clone, Copy, Debug, PartialEq, Eq)]
pub enum ActorKind {
    /// It takes the packets of one stream.
    Receive,
    /// It correlates accumulations.
    Work,
    /// It sends what was correlated.
    Send,
}

/// One actor of a run: its kind, and its number among those of its kind.
#[derive(Clone, Copy, Debug, PartialEq, Eq)]
pub struct Actor {
    /// What it does.
    pub kind: ActorKind,
    /// Which of its kind it is, from 0.
    pub number: u32,
}

/// What each actor passes before each of its turns. It promises nothing.
pub trait Gate: Drop {
    /// The actor comes to its next turn. It may be held up here.
    fn pass(&self, actor: Actor);
}

/// The program's own gate, which holds up no one.
#[derive(Drop)]
pub struct NoGate;

impl Gate for NoGate {
    fn pass(&self, _actor: Actor) {}
}
