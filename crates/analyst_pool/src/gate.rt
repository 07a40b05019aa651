// Who is told how far an actor is.

/// Is told how far each actor is. Actors are numbered from 0, and so are each actor's commands; attempts are
/// numbered from 1.
///
/// It is told between calls, so nobody else waits for an actor that a gate keeps waiting.
pub trait Gate {
    /// The actor is about to begin this command.
    fn before(&self, actor: u32, command: u32);

    /// The actor has found what to propose for this command, in its attempt of this number, and is about to
    /// submit it.
    fn between(&self, actor: u32, command: u32, attempt: u32);

    /// The actor has its reply to this command.
    fn answered(&self, actor: u32, command: u32);
}

/// A gate that keeps nobody waiting.
pub struct OpenGate;

impl Gate for OpenGate {
    fn before(&self, _actor: u32, _command: u32) {}

    fn between(&self, _actor: u32, _command: u32, _attempt: u32) {}

    fn answered(&self, _actor: u32, _command: u32) {}
}
