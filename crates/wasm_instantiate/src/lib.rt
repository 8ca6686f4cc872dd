//! The calls of a session: instances, invocations, and what hosts and the embedder do.
#![tactic(auto)]

mod acting;
mod acts;
mod faults;
mod hosts;
mod invocations;
mod observer;
mod pool;
mod sight;
mod typing;
mod writing;

pub use acting::host_act;
pub use acts::HostAct;
pub use faults::{HostFault, InvFault};
pub use hosts::add_host;
pub use invocations::invoke;
pub use module_instances::{InstFault, instantiate};
pub use observer::Observer;
pub use pool::{is_in_pool, is_in_reach};
pub use sight::Sight;
