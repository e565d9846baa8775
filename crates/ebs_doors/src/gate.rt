// What a server passes on its way.

/// What a server passes before each turn and behind each answer. Those that serve share one, so a test can hold one
/// connection back until another has its answer.
pub trait Gate {
    /// Comes before the turn of each message that makes a call.
    fn before_turn(&self);

    /// Comes behind each answer that was written.
    fn after_answer(&self);
}

/// Holds nothing back.
#[derive(Clone, Copy, Debug)]
pub struct OpenGate;

impl Gate for OpenGate {
    fn before_turn(&self) {}

    fn after_answer(&self) {}
}
