//! The gate that workers pass on their way through a round.

/// What workers tell of their way through a round. A gate may hold a worker up; no call changes what a contract
/// names.
pub trait Gate: Sync {
    /// A worker has claimed a length and is about to work on it. Workers and lengths are numbered from 0.
    fn pass(&self, worker: u32, length: u32);

    /// A worker knows the best step of a length, after trying so many moves, and is about to report it.
    fn done(&self, worker: u32, length: u32, moves: u64);
}

/// A gate that lets every worker through.
#[derive(Clone, Copy, Debug)]
pub struct OpenGate;

impl Gate for OpenGate {
    fn pass(&self, _worker: u32, _length: u32) {}

    fn done(&self, _worker: u32, _length: u32, _moves: u64) {}
}

#[cfg(test)]
mod tests {
    use super::*;

    fn go_through<G: Gate>(gate: &G) {
        gate.pass(0, 3);
        gate.done(0, 3, 17);
    }

    #[test]
    fn an_open_gate_lets_a_worker_through() {
        go_through(&OpenGate);
    }
}
