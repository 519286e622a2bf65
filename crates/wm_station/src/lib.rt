//! The outside of the program: where a script comes from, and the disk and the answers in one device.
#![tactic(auto)]

mod failing;
mod fault;
mod file_station;
mod fuse_station;
mod memory_source;
mod memory_station;
mod opening;
mod quiet_station;
mod recording;
mod source;
mod station;
mod stream_source;
mod tear;

pub use failing::{Failing, Faults};
pub use fault::{DiskFailed, SayFailed, SourceFailed};
pub use file_station::FileStation;
pub use fuse_station::FuseStation;
pub use memory_source::{MemorySource, QuietSource};
pub use memory_station::MemoryStation;
pub use quiet_station::QuietStation;
pub use recording::{Call, Recording};
pub use source::Source;
pub use station::Station;
pub use stream_source::StreamSource;
pub use tear::Tear;
