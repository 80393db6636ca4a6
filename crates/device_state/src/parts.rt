//! What the device keeps of a host.

use event_log::EventLog;
use host_lists::HostLists;

/// The lists of a host and its event log.
#[derive(Drop)]
pub struct HostPart {
    pub lists: HostLists,
    pub log: EventLog,
}
