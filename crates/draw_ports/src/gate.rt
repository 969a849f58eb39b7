// Points of a worker's work at which a test may hold it.

/// The points that a worker reaches, each named for the act that it just did.
#[derive(Clone, Copy, Debug, PartialEq, Eq)]
pub enum GatePoint {
    /// The worker began.
    Start,
    /// It took a task.
    Took,
    /// It gave a part of its task away, or its push was handed back.
    Split,
    /// It closed a task.
    Closed,
    /// It raised the stop flag.
    Raised,
    /// It looked at the stop flag.
    Looked,
    /// The worker ends.
    Done,
}

/// Where a worker passes by. A gate has no meaning and changes no answer.
pub trait Gate {
    /// Tells that the worker, counted from 0, reached the point. It returns.
    fn at(&self, worker: u32, point: GatePoint);
}

/// A gate that holds nobody.
#[derive(Clone, Copy, Debug)]
pub struct OpenGate;

impl Gate for OpenGate {
    fn at(&self, _worker: u32, _point: GatePoint) {}
}

#[cfg(test)]
mod tests {
    use super::*;

    fn pass<G: Gate + Sync>(gate: &G) {
        gate.at(0, GatePoint::Start);
    }

    #[test]
    fn holds_nobody() {
        pass(&OpenGate);
    }
}
