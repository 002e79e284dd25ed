//! What those who publish and read know, as contracts speak of it. No value of this type is made.
use std::collections::LinkedList;

/// What one of them knows, and did.
pub struct CountsView {
    /// The words that it published, in order.
    pub published: LinkedList<u64>,
    /// The words that had been published when it read last, in order.
    pub seen: LinkedList<u64>,
    /// How often it read.
    pub reads: u64,
}
