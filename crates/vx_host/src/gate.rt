//! The gate that each worker passes between its steps.
/// Where a worker stands when it calls the gate.
#[derive(Clone, Copy, Debug, PartialEq, Eq)]
pub enum GatePlace {
    BeforeStep,
    BeforeRequest,
    AfterEnd,
}

/// Called by each worker between its steps, outside every lock. Tests hold a worker back with it.
pub trait Gate {
    fn at(&self, worker: u32, job: u32, place: GatePlace);
}

/// Holds nobody.
#[derive(Clone, Copy, Debug)]
pub struct FreeGate;

impl Gate for FreeGate {
    fn at(&self, _worker: u32, _job: u32, _place: GatePlace) {}
}
