//! Bytes in, bytes out, and whose fault it is where they stop.
//!
//! Its user calls [`read_all`] over a [`Source`] and [`write_all_counted`] over a [`Sink`]. Each
//! counts its faults, so that a caller can tell whether a call failed by the outside's fault, and each
//! says which bytes went through it, for proofs alone.
#![tactic(auto)]

pub mod adapters;
pub mod memory;
pub mod outside;
pub mod reading;
pub mod sure;
pub mod tape;
pub mod writing;

pub use adapters::{StdSink, StdSource};
pub use memory::{MemorySink, MemorySource};
pub use outside::{Failed, Sink, Source};
pub use reading::{ReadAll, ReadStop, read_all};
pub use sure::{SureSink, SureSource};
pub use writing::{Stopped, write_all_counted};
