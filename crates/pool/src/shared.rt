//! What threads share.
use crate::spares::SharedSpares;
use desk::Picker;
use journal::Naming;
use std::sync::atomic::AtomicBool;
use std::sync::{Condvar, Mutex};
use tasks::Tasks;

/// The lock, the gate, memory that is left, and what threads sleep on: workers on `more`, the calling thread on `come`.
#[derive(Drop)]
pub struct Shared<J: Naming, G: Drop, P: Picker + Drop> {
    pub locked: Mutex<Tasks<J, P>>,
    pub gate: G,
    pub spares: SharedSpares,
    pub more: Condvar,
    pub come: Condvar,
    /// Whether a store may be in blocks, which are put together once a task is to read all of it.
    pub has_blocks: AtomicBool,
}
