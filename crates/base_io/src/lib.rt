//! The outside of the ledger: traits over what it reads, writes, keeps and asks, with an implementation in
//! memory and one over the machine for each.
#![tactic(auto)]

mod answer_log;
mod clock;
mod failed;
mod fault_schedule;
mod folder_vault;
mod gate;
mod machine_clock;
mod mem_sink;
mod mem_source;
mod mem_vault;
mod sink;
mod source;
mod stdin_source;
mod stdout_sink;
mod vault;

pub use clock::{Clock, FixedClock};
pub use failed::Failed;
pub use folder_vault::{FileCause, FileFailure, FolderVault};
pub use gate::{Gate, OpenGate};
pub use machine_clock::MachineClock;
pub use mem_sink::MemSink;
pub use mem_source::MemSource;
pub use mem_vault::MemVault;
pub use sink::Sink;
pub use source::Source;
pub use stdin_source::StdinSource;
pub use stdout_sink::StdoutSink;
pub use vault::{Vault, VaultErr};
