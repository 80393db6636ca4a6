//! The functions that C calls. `include/dcd.h` says what each of them does and what its caller owes.

ghost use Rattle.dcd_c.specs.Calls.{AnswersLoad, AnswersStore, AnswersTurn, CallsDevice, ClosesPlace, OpensPlace, SendsTo};
ghost use Rattle.dcd_c.specs.Asking.{AsksHost, AsksMemory, AsksPlace, TellsState};
ghost use Rattle.dcd_c.specs.HeadFaults.{TellsOpened};
ghost use Rattle.dcd_c.specs.Changes.{TellsChanged};
ghost use Rattle.dcd_c.specs.Lists.{TellsHostItems, TellsItems, TellsLog, TellsPlace, accepted_told, bases_told, offers_told, regions_told, tags_told};
ghost use Rattle.dcd_c.specs.Opening.{OpensWith};
ghost use Rattle.dcd_c.specs.Refusals.{AsksRefusal, PutsRefusal};
ghost use Rattle.dcd_c.specs.RuleNumbers.{rule_word};
ghost use Rattle.dcd_c.specs.Texts.{PutsText, fault_text};
ghost use Rattle.dcd_c.specs.Words.{PutsName, code_word, fault_word, status_word};
ghost use Rattle.dcd_c.specs.declared.asking.HostState.{HostState};
ghost use Rattle.dcd_c.specs.declared.asking.MemoryState.{MemoryState};
ghost use Rattle.dcd_c.specs.declared.refusals.RefusalTold.{RefusalTold};
ghost use Rattle.std.specs.Prelude.{◌≡◌, nat_lt};
ghost use Rattle.dcd_c.specs.Statuses.{BySize, TellsDone, TellsNumber};

use crate::accesses::{loaded, scrubbed, stored};
use crate::asking::{HOST_STATE, HostState, MEMORY_STATE, MemoryState, host_asked, memory_asked};
use crate::changes::{RunTold, STEP, StepTold, changes_asked};
use crate::faults::Fault;
use crate::handles::Handle;
use crate::head_faults::{HeadFault, tell_fault};
use crate::heads::{RegionTold, closed, opened, opened_with};
use crate::lists::{
    ExtentTold, bases_asked, extents_asked, offers_asked, records_asked, regions_asked,
};
use crate::names::{code_name, fault_name, put_name, status_name};
use crate::refusals::{REFUSAL, RefusalTold, refusal_asked, sentence_asked};
use crate::rule_numbers::rule_name;
use crate::sending::sent;
use crate::tags::{TagTold, tags_asked};
use crate::telling::{tell_done, tell_number};
use crate::texts::put_fault;
use std::alloc::Global;

/// Sends a message as the actor of this number, and puts the response into the room and its length at `length`.
///
/// Where there is too little room, the length that is needed goes there, and nothing else has changed.
#[unsafe(no_mangle)]
pub extern "C" fn dcd_send(
    handle: &mut Handle,
    alloc: Global,
    actor: u8,
    message: &[u8],
    room: &mut [u8],
    length: &mut u64,
) -> u32
    ensures { TellsNumber result length.old length.new (SendsTo actor message.now room.old room.new handle.old.place.device handle.new.place.device) }
{
    let outcome = sent(handle, alloc, actor, message, room);
    tell_number(&outcome, length)
}

/// Loads the word at the address of the host, and puts it at `word`.
#[unsafe(no_mangle)]
pub extern "C" fn dcd_load(
    handle: &mut Handle,
    alloc: Global,
    host: u8,
    dpa: u64,
    word: &mut u64,
) -> u32
    ensures { TellsNumber result word.old word.new (CallsDevice (AnswersLoad host dpa) handle.old.place.device handle.new.place.device) }
{
    let outcome = loaded(handle, alloc, host, dpa);
    tell_number(&outcome, word)
}

/// Stores the word at the address of the host.
#[unsafe(no_mangle)]
pub extern "C" fn dcd_store(
    handle: &mut Handle,
    alloc: Global,
    host: u8,
    dpa: u64,
    word: u64,
) -> u32
    ensures { TellsDone result (CallsDevice (AnswersStore host dpa word) handle.old.place.device handle.new.place.device) }
{
    let outcome = stored(handle, alloc, host, dpa, word);
    tell_done(&outcome)
}

/// Takes a turn of the sanitizer over at most so many granules, and puts at `zeroed` how many it zeroed.
#[unsafe(no_mangle)]
pub extern "C" fn dcd_scrub(handle: &mut Handle, alloc: Global, most: u16, zeroed: &mut u64) -> u32
    ensures { TellsNumber result zeroed.old zeroed.new (CallsDevice (AnswersTurn most) handle.old.place.device handle.new.place.device) }
{
    let outcome = scrubbed(handle, alloc, most);
    tell_number(&outcome, zeroed)
}

/// Puts at `state` what the host has.
#[unsafe(no_mangle)]
pub extern "C" fn dcd_host(
    handle: &mut Handle,
    alloc: Global,
    host: u8,
    state: &mut HostState,
) -> u32
    ensures told { BySize (nat_lt state.old.size 40) ((result ≡ 13) × (state.new ≡ state.old)) (TellsState HostState result state.old state.new (AsksPlace (AsksHost host) handle.old.place.device)) }
    ensures kept { handle.new.place.device ≡ handle.old.place.device }
{
    if state.size < HOST_STATE {
        return Fault::BadSize.status();
    }
    match host_asked(handle, alloc, host) {
        Ok(asked) => {
            *state = asked;
            0
        }
        Err(fault) => fault.status(),
    }
}

/// Puts at `state` what the whole device has.
#[unsafe(no_mangle)]
pub extern "C" fn dcd_memory(handle: &mut Handle, alloc: Global, state: &mut MemoryState) -> u32
    ensures told { BySize (nat_lt state.old.size 32) ((result ≡ 13) × (state.new ≡ state.old)) (TellsState MemoryState result state.old state.new (AsksPlace AsksMemory handle.old.place.device)) }
    ensures kept { handle.new.place.device ≡ handle.old.place.device }
{
    if state.size < MEMORY_STATE {
        return Fault::BadSize.status();
    }
    match memory_asked(handle, alloc) {
        Ok(asked) => {
            *state = asked;
            0
        }
        Err(fault) => fault.status(),
    }
}

/// Puts into the handle the device of the head that the bytes begin with; what stands behind the head is not read.
///
/// Where there is no head, the number of the first fault and its place are put at `fault`.
#[unsafe(no_mangle)]
pub extern "C" fn dcd_open(
    handle: &mut Handle,
    alloc: Global,
    script: &[u8],
    fault: &mut HeadFault,
) -> u32
    ensures { TellsOpened result fault.old fault.new (OpensPlace script.now handle.old.place.device handle.new.place.device) }
{
    let outcome = opened(handle, alloc, script);
    tell_fault(&outcome, fault);
    tell_done(&outcome)
}

/// Frees the device. The handle has none then, and a device may be opened in it again.
#[unsafe(no_mangle)]
pub extern "C" fn dcd_close(handle: &mut Handle, alloc: Global) -> u32
    ensures { TellsDone result (ClosesPlace handle.old.place.device handle.new.place.device) }
{
    let outcome = closed(handle, alloc);
    tell_done(&outcome)
}

/// The version of the library: 1.0.0.
#[unsafe(no_mangle)]
pub extern "C" fn dcd_version() -> u32
    ensures { result ≡ 0x010000 }
{
    0x01_00_00
}

/// Puts into the handle the device of these hosts, regions and bases: that of the head that spells them.
#[unsafe(no_mangle)]
pub extern "C" fn dcd_open_with(
    handle: &mut Handle,
    alloc: Global,
    hosts: u8,
    regions: &[RegionTold],
    bases: &[u64],
    fault: &mut HeadFault,
) -> u32
    ensures { TellsOpened result fault.old fault.new (OpensWith hosts regions.now bases.now handle.old.place.device handle.new.place.device) }
{
    let outcome = opened_with(handle, alloc, hosts, regions, bases);
    tell_fault(&outcome, fault);
    tell_done(&outcome)
}

/// Puts at `runs` what the last step changed, and at `step` how many runs that are and which logs grew.
#[unsafe(no_mangle)]
pub extern "C" fn dcd_changes(
    handle: &mut Handle,
    alloc: Global,
    runs: &mut [RunTold],
    step: &mut StepTold,
) -> u32
    ensures told { BySize (nat_lt step.old.size 24) ((result ≡ 13) × (runs.new ≡ runs.old) × (step.new ≡ step.old)) (TellsChanged result runs.old runs.new step.old step.new handle.old.place.device) }
    ensures kept { handle.new.place.device ≡ handle.old.place.device }
{
    if step.size < STEP {
        return Fault::BadSize.status();
    }
    match changes_asked(handle, alloc, runs, step) {
        Ok(_) => 0,
        Err(fault) => fault.status(),
    }
}

/// Puts the accepted extents of the host into the room.
#[unsafe(no_mangle)]
pub extern "C" fn dcd_extents(
    handle: &mut Handle,
    alloc: Global,
    host: u8,
    room: &mut [ExtentTold],
    count: &mut u64,
) -> u32
    ensures told { TellsNumber result count.old count.new (TellsPlace room.old room.new (TellsHostItems host (accepted_told host) room.old room.new) handle.old.place.device) }
    ensures kept { handle.new.place.device ≡ handle.old.place.device }
{
    let outcome = extents_asked(handle, alloc, host, room);
    tell_number(&outcome, count)
}

/// Puts the extents of the host's waiting offers into the room.
#[unsafe(no_mangle)]
pub extern "C" fn dcd_offers(
    handle: &mut Handle,
    alloc: Global,
    host: u8,
    room: &mut [ExtentTold],
    count: &mut u64,
) -> u32
    ensures told { TellsNumber result count.old count.new (TellsPlace room.old room.new (TellsHostItems host (offers_told host) room.old room.new) handle.old.place.device) }
    ensures kept { handle.new.place.device ≡ handle.old.place.device }
{
    let outcome = offers_asked(handle, alloc, host, room);
    tell_number(&outcome, count)
}

/// Puts the live tags into the room, in the order of opening.
#[unsafe(no_mangle)]
pub extern "C" fn dcd_tags(
    handle: &mut Handle,
    alloc: Global,
    room: &mut [TagTold],
    count: &mut u64,
) -> u32
    ensures told { TellsNumber result count.old count.new (TellsPlace room.old room.new (TellsItems tags_told room.old room.new) handle.old.place.device) }
    ensures kept { handle.new.place.device ≡ handle.old.place.device }
{
    let outcome = tags_asked(handle, alloc, room);
    tell_number(&outcome, count)
}

/// Puts the records of the log into the room.
#[unsafe(no_mangle)]
pub extern "C" fn dcd_records(
    handle: &mut Handle,
    alloc: Global,
    log: u8,
    room: &mut [u8],
    count: &mut u64,
) -> u32
    ensures told { TellsNumber result count.old count.new (TellsPlace room.old room.new (TellsLog log room.old room.new) handle.old.place.device) }
    ensures kept { handle.new.place.device ≡ handle.old.place.device }
{
    let outcome = records_asked(handle, alloc, log, room);
    tell_number(&outcome, count)
}

/// Puts the regions into the room, with their present blocks.
#[unsafe(no_mangle)]
pub extern "C" fn dcd_regions(
    handle: &mut Handle,
    alloc: Global,
    room: &mut [RegionTold],
    count: &mut u64,
) -> u32
    ensures told { TellsNumber result count.old count.new (TellsPlace room.old room.new (TellsItems regions_told room.old room.new) handle.old.place.device) }
    ensures kept { handle.new.place.device ≡ handle.old.place.device }
{
    let outcome = regions_asked(handle, alloc, room);
    tell_number(&outcome, count)
}

/// Puts the bases of the regions into the room, host by host.
#[unsafe(no_mangle)]
pub extern "C" fn dcd_bases(
    handle: &mut Handle,
    alloc: Global,
    room: &mut [u64],
    count: &mut u64,
) -> u32
    ensures told { TellsNumber result count.old count.new (TellsPlace room.old room.new (TellsItems bases_told room.old room.new) handle.old.place.device) }
    ensures kept { handle.new.place.device ≡ handle.old.place.device }
{
    let outcome = bases_asked(handle, alloc, room);
    tell_number(&outcome, count)
}

/// Puts at `refusal` the rule that the message of the actor would break now.
#[unsafe(no_mangle)]
pub extern "C" fn dcd_refusal(
    handle: &mut Handle,
    alloc: Global,
    actor: u8,
    message: &[u8],
    refusal: &mut RefusalTold,
) -> u32
    ensures told { BySize (nat_lt refusal.old.size 40) ((result ≡ 13) × (refusal.new ≡ refusal.old)) (TellsState RefusalTold result refusal.old refusal.new (AsksPlace (AsksRefusal actor message.now) handle.old.place.device)) }
    ensures kept { handle.new.place.device ≡ handle.old.place.device }
{
    if refusal.size < REFUSAL {
        return Fault::BadSize.status();
    }
    match refusal_asked(handle, alloc, actor, message) {
        Ok(told) => {
            *refusal = told;
            0
        }
        Err(fault) => fault.status(),
    }
}

/// Puts the sentence of the rule that the message of the actor would break now into the room, with a NUL behind it.
#[unsafe(no_mangle)]
pub extern "C" fn dcd_refusal_text(
    handle: &mut Handle,
    alloc: Global,
    actor: u8,
    message: &[u8],
    room: &mut [u8],
    length: &mut u64,
) -> u32
    ensures told { TellsNumber result length.old length.new (TellsPlace room.old room.new (PutsRefusal actor message.now room.old room.new) handle.old.place.device) }
    ensures kept { handle.new.place.device ≡ handle.old.place.device }
{
    let outcome = sentence_asked(handle, alloc, actor, message, room);
    tell_number(&outcome, length)
}

/// Puts the name of a status into the room, with a NUL behind it.
#[unsafe(no_mangle)]
pub extern "C" fn dcd_status_name(number: u32, room: &mut [u8], length: &mut u64) -> u32
    ensures { TellsNumber result length.old length.new (PutsName (status_word number) room.old room.new) }
{
    let outcome = put_name(status_name(number), room);
    tell_number(&outcome, length)
}

/// Puts the name of a return code into the room, with a NUL behind it.
#[unsafe(no_mangle)]
pub extern "C" fn dcd_code_name(number: u16, room: &mut [u8], length: &mut u64) -> u32
    ensures { TellsNumber result length.old length.new (PutsName (code_word number) room.old room.new) }
{
    let outcome = put_name(code_name(number), room);
    tell_number(&outcome, length)
}

/// Puts the name of a rule into the room, with a NUL behind it.
#[unsafe(no_mangle)]
pub extern "C" fn dcd_rule_name(number: u16, room: &mut [u8], length: &mut u64) -> u32
    ensures { TellsNumber result length.old length.new (PutsName (rule_word number) room.old room.new) }
{
    let outcome = put_name(rule_name(number), room);
    tell_number(&outcome, length)
}

/// Puts the name of a fault of a head into the room, with a NUL behind it.
#[unsafe(no_mangle)]
pub extern "C" fn dcd_fault_name(number: u32, room: &mut [u8], length: &mut u64) -> u32
    ensures { TellsNumber result length.old length.new (PutsName (fault_word number) room.old room.new) }
{
    let outcome = put_name(fault_name(number), room);
    tell_number(&outcome, length)
}

/// Puts why a head was refused into the room, in words, with a NUL behind them.
#[unsafe(no_mangle)]
pub extern "C" fn dcd_fault_text(
    fault: &HeadFault,
    alloc: Global,
    room: &mut [u8],
    length: &mut u64,
) -> u32
    ensures { TellsNumber result length.old length.new (PutsText (fault_text fault.now) room.old room.new) }
{
    let outcome = put_fault(alloc, fault, room);
    tell_number(&outcome, length)
}
