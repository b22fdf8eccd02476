//! Tickets that are stores.
ghost use Rattle.std.specs.Arc.{arc_value};
ghost use Rattle.calls.specs.Stores.{IsStoreOf};

use calls::Signature;
use std::sync::Arc;
use store::Store;

/// A store, and when it was made.
#[derive(Drop)]
pub struct Ticket {
    pub of: Signature,
    pub store: Arc<Store>,
    pub epoch: u64,
    pub ghost is_store: { IsStoreOf of (arc_value store) },
}
