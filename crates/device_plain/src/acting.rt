//! What the host of a device with one host alone does, and what it is replied.

ghost use Rattle.control_core.specs.device_rules.specs.Answers.{response};
ghost use Rattle.extent_list.specs.HostLists.{extent_total};
ghost use Rattle.device_plain.specs.Acting.{ChangesAlone, TellsAlone, without_held};
ghost use Rattle.device_plain.specs.Alone.{DoesAlone};
ghost use Rattle.isolation_laws.specs.Solo.{has_byte as has_byte_in};
ghost use Rattle.std.specs.List.{list_any};
ghost use Rattle.std.specs.Prelude.{◌≡◌, ◌<◌, ◌≤◌, IfOk, OnOk};

use crate::alone::Alone;
use crate::lists_alone::change_lists;
use crate::words_alone::{clear_words, has_byte, store_word, word_at};
use cci_codec::Request;
use control_core::device_commands::{Draft, answer, refused};
use control_core::device_state::change_log_named;
use control_core::host_commands::host_draft;
use dcd_base::{AccessFault, HostId, LogId, NoMemory};
use extent_list::dcd_codes::{Code, Refusal};
use isolation_laws::SoloReply;
use journal_core::{Act, Effect, Reply};
use media_map::locate;
use region_config::Config;
use std::alloc::Global;

/// The opcodes whose refusal ends a held list: Add Dynamic Capacity Response and Release Dynamic Capacity.
const ADD_RESPONSE: u16 = 0x4802;

const GIVE_BACK: u16 = 0x4803;

impl Alone {
    /// Does an act of the host and answers what it is replied.
    pub(crate) fn act(
        &mut self,
        alloc: Global,
        config: &Config,
        host: HostId,
        act: &Act,
    ) -> Result<SoloReply, NoMemory>
        requires host { host < config.now.hosts }
        requires hosts { self.old.present.hosts ≡ config.now.hosts }
        requires few { extent_total self.old.lists ≤ 64 }
        ensures { IfOk result (DoesAlone config.now host act.now self.old self.new) }
    {
        match act {
            Act::Command(request) => {
                Ok(SoloReply::Said(self.command(alloc, config, host, request)?))
            }
            Act::Load(dpa) => Ok(self.load(config, host, *dpa)),
            Act::Store(dpa, value) => Ok(SoloReply::Said(self.store(config, host, *dpa, *value)?)),
            Act::Scrub(_) => Ok(SoloReply::Unsaid),
        }
    }

    /// Does a command.
    fn command(
        &mut self,
        alloc: Global,
        config: &Config,
        host: HostId,
        request: &Request,
    ) -> Result<Reply, NoMemory>
        requires host { host < config.now.hosts }
        requires hosts { self.old.present.hosts ≡ config.now.hosts }
        requires few { extent_total self.old.lists ≤ 64 }
        ensures { IfOk result (λ reply. DoesAlone config.now host (Act.Command request.now) self.old self.new (SoloReply.Said reply)) }
    {
        match host_draft(
            alloc,
            config,
            &self.present,
            host,
            &self.lists,
            &self.log,
            request,
        ) {
            Ok(draft) => self.enact(alloc, config, host, request, draft),
            Err(Refusal::Broken(rule)) => {
                self.drop_held(request.opcode);
                Ok(refused(alloc, request, &rule))
            }
            Err(Refusal::NoMemory) => Err(NoMemory),
        }
    }

    /// Does what a command changes that breaks no rule.
    fn enact(
        &mut self,
        alloc: Global,
        config: &Config,
        host: HostId,
        request: &Request,
        draft: Draft,
    ) -> Result<Reply, NoMemory>
        requires host { host < config.now.hosts }
        ensures reply { IfOk result (λ reply. reply ≡ response request.now Code.Success draft.payload) }
        ensures changed { OnOk result (ChangesAlone config.now host draft.changes self.old self.new) }
    {
        let Draft {
            payload,
            changes,
            tags: _,
            log_records: _,
        } = draft;
        self.change(host, changes.as_slice());
        change_lists(&mut self.lists, config, host, changes.as_slice())?;
        Ok(answer(request, Code::Success, payload))
    }

    /// Changes the log and the words as the effects say.
    fn change(&mut self, host: HostId, changes: &[Effect])
        ensures { TellsAlone host changes.now self.old self.new }
    {
        for i in 0..changes.len() {
            change_log_named(&mut self.log, &LogId::Host(host), &changes[i]);
            clear_words(&mut self.words, &changes[i]);
        }
    }

    /// A refused response or release ends its held list.
    fn drop_held(&mut self, opcode: u16)
        ensures { self.new ≡ record self.old { lists = without_held opcode self.old.lists } }
    {
        if opcode == ADD_RESPONSE {
            self.lists.drop_responses();
        } else if opcode == GIVE_BACK {
            self.lists.drop_releases();
        }
    }

    /// Whether the host has accepted an extent with the address.
    fn holds(&self, dpa: u64) -> bool
        ensures { result ≡ list_any (has_byte_in dpa) self.now.lists.accepted }
    {
        self.lists
            .accepted()
            .as_slice()
            .iter()
            .any(|extent| has_byte(extent, dpa))
    }

    /// The word at the address; nothing is said where hosts can share the region or it is not sanitized.
    fn load(&self, config: &Config, host: HostId, dpa: u64) -> SoloReply
        requires { host < config.now.hosts }
        ensures { DoesAlone config.now host (Act.Load dpa) self.now self.now result }
    {
        match locate(config, host, dpa) {
            Err(fault) => SoloReply::Said(Reply::Refused(fault)),
            Ok(place) => {
                if !self.holds(dpa) {
                    return SoloReply::Said(Reply::Refused(AccessFault::NotGranted));
                }
                let region = config.region(place.region);
                if region.shareable || !region.sanitize {
                    return SoloReply::Unsaid;
                }
                SoloReply::Said(Reply::Word(word_at(&self.words, dpa)))
            }
        }
    }

    /// Stores a word.
    fn store(
        &mut self,
        config: &Config,
        host: HostId,
        dpa: u64,
        value: u64,
    ) -> Result<Reply, NoMemory>
        requires { host < config.now.hosts }
        ensures { IfOk result (λ reply. DoesAlone config.now host (Act.Store dpa value) self.old self.new (SoloReply.Said reply)) }
    {
        match locate(config, host, dpa) {
            Err(fault) => Ok(Reply::Refused(fault)),
            Ok(_) => {
                if !self.holds(dpa) {
                    return Ok(Reply::Refused(AccessFault::NotGranted));
                }
                store_word(&mut self.words, dpa, value)?;
                Ok(Reply::Stored)
            }
        }
    }
}
