//! The names of the commands.

ghost use Rattle.text_lines.specs.Commands.{host_command_said, host_command_text, manager_command_said, manager_command_text};
ghost use Rattle.std.specs.Prelude.{◌≡◌};

/// A command of a host.
#[derive(Clone, Copy, Debug, PartialEq, Eq)]
pub enum HostCommand {
    GetEventRecords,
    ClearEventRecords,
    GetConfiguration,
    GetExtentList,
    AddResponse,
    Release,
}

impl HostCommand {
    /// The word as it is written.
    pub fn text(self) -> &'static [u8]
        ensures { result.now ≡ host_command_text self }
    {
        match self {
            HostCommand::GetEventRecords => b"get-event-records".as_slice(),
            HostCommand::ClearEventRecords => b"clear-event-records".as_slice(),
            HostCommand::GetConfiguration => b"get-dc-configuration".as_slice(),
            HostCommand::GetExtentList => b"get-dc-extent-list".as_slice(),
            HostCommand::AddResponse => b"add-dc-response".as_slice(),
            HostCommand::Release => b"release-dc".as_slice(),
        }
    }
}

/// A command of the Fabric Manager.
#[derive(Clone, Copy, Debug, PartialEq, Eq)]
pub enum ManagerCommand {
    GetEventRecords,
    ClearEventRecords,
    GetInfo,
    GetRegionConfiguration,
    SetRegionConfiguration,
    GetRegionExtentLists,
    InitiateAdd,
    InitiateRelease,
    AddReference,
    RemoveReference,
    ListTags,
}

impl ManagerCommand {
    /// The word as it is written.
    pub fn text(self) -> &'static [u8]
        ensures { result.now ≡ manager_command_text self }
    {
        match self {
            ManagerCommand::GetEventRecords => b"get-event-records".as_slice(),
            ManagerCommand::ClearEventRecords => b"clear-event-records".as_slice(),
            ManagerCommand::GetInfo => b"get-dcd-info".as_slice(),
            ManagerCommand::GetRegionConfiguration =>
                b"get-host-dc-region-configuration".as_slice(),
            ManagerCommand::SetRegionConfiguration => b"set-dc-region-configuration".as_slice(),
            ManagerCommand::GetRegionExtentLists => b"get-dc-region-extent-lists".as_slice(),
            ManagerCommand::InitiateAdd => b"initiate-dc-add".as_slice(),
            ManagerCommand::InitiateRelease => b"initiate-dc-release".as_slice(),
            ManagerCommand::AddReference => b"dc-add-reference".as_slice(),
            ManagerCommand::RemoveReference => b"dc-remove-reference".as_slice(),
            ManagerCommand::ListTags => b"dc-list-tags".as_slice(),
        }
    }
}

/// The command of a host that a word names.
#[tactic(auto, unfolding(crate::specs::Commands::host_command_said))]
pub fn host_command(word: &[u8]) -> Option<HostCommand>
    ensures { result ≡ host_command_said word.now }
{
    if word == b"get-event-records".as_slice() {
        Some(HostCommand::GetEventRecords)
    } else if word == b"clear-event-records".as_slice() {
        Some(HostCommand::ClearEventRecords)
    } else if word == b"get-dc-configuration".as_slice() {
        Some(HostCommand::GetConfiguration)
    } else if word == b"get-dc-extent-list".as_slice() {
        Some(HostCommand::GetExtentList)
    } else if word == b"add-dc-response".as_slice() {
        Some(HostCommand::AddResponse)
    } else if word == b"release-dc".as_slice() {
        Some(HostCommand::Release)
    } else {
        None
    }
}

/// The command of the Fabric Manager that a word names.
#[tactic(auto, unfolding(crate::specs::Commands::manager_command_said))]
pub fn manager_command(word: &[u8]) -> Option<ManagerCommand>
    ensures { result ≡ manager_command_said word.now }
{
    if word == b"get-event-records".as_slice() {
        Some(ManagerCommand::GetEventRecords)
    } else if word == b"clear-event-records".as_slice() {
        Some(ManagerCommand::ClearEventRecords)
    } else if word == b"get-dcd-info".as_slice() {
        Some(ManagerCommand::GetInfo)
    } else if word == b"get-host-dc-region-configuration".as_slice() {
        Some(ManagerCommand::GetRegionConfiguration)
    } else if word == b"set-dc-region-configuration".as_slice() {
        Some(ManagerCommand::SetRegionConfiguration)
    } else if word == b"get-dc-region-extent-lists".as_slice() {
        Some(ManagerCommand::GetRegionExtentLists)
    } else if word == b"initiate-dc-add".as_slice() {
        Some(ManagerCommand::InitiateAdd)
    } else if word == b"initiate-dc-release".as_slice() {
        Some(ManagerCommand::InitiateRelease)
    } else if word == b"dc-add-reference".as_slice() {
        Some(ManagerCommand::AddReference)
    } else if word == b"dc-remove-reference".as_slice() {
        Some(ManagerCommand::RemoveReference)
    } else if word == b"dc-list-tags".as_slice() {
        Some(ManagerCommand::ListTags)
    } else {
        None
    }
}
