//! What is called while a processor is driven.

use std::sync::Wait;

/// Is called around the steps of a run, with no lock held: a gate may watch the run, wait, or bring steps of different
/// processors into an order.
pub trait Gate {
    /// Before a step of stream `s` of processor `p` that asks nothing of the memory.
    fn local<R: Wait>(&self, rt: &R, p: u8, s: u8);

    /// Before a request of stream `s` of processor `p`.
    fn before<R: Wait>(&self, rt: &R, p: u8, s: u8);

    /// After the reply to a request of stream `s` of processor `p`.
    fn after<R: Wait>(&self, rt: &R, p: u8, s: u8);
}

/// A gate that does nothing.
#[derive(Clone, Copy, Debug)]
pub struct FreeGate;

impl Gate for FreeGate {
    fn local<R: Wait>(&self, _rt: &R, _p: u8, _s: u8) {}

    fn before<R: Wait>(&self, _rt: &R, _p: u8, _s: u8) {}

    fn after<R: Wait>(&self, _rt: &R, _p: u8, _s: u8) {}
}
