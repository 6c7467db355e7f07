//! What a pass knows of its queue. No value of it is made.

use std::collections::LinkedList;

/// The parts that a pass has in the right to know all of its queue, and which items it has put and taken.
pub struct Share<T> {
    pub parts: u64,
    pub put: LinkedList<T>,
    pub taken: LinkedList<T>,
}
