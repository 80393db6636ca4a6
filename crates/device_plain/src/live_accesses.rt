//! Loads and stores of hosts: where they lie, what they find and change, and what is replied.

ghost use Rattle.control_core.specs.Pasts.{ByEveryPast};
ghost use Rattle.device_plain.specs.Accesses.{StoresAt, granted_place, store_said, word_from};
ghost use Rattle.dcd_base.specs.declared.failures.AccessFault.{AccessFault};
ghost use Rattle.dcd_base.specs.declared.media.Place.{Place};
ghost use Rattle.journal_core.specs.Accesses.{load_said, stored_unless};
ghost use Rattle.journal_core.specs.Entries.{effects};
ghost use Rattle.media_map.specs.Places.{locate};
ghost use Rattle.region_config.specs.Granules.{granule_total};
ghost use Rattle.std.specs.Prelude.{◌≡◌, ◌<◌, IfOk, OnErr, OnOk, length};

use control_core::LiveControl;
use dcd_base::{AccessFault, HostId, NoMemory, Place};
use granule_mem::GranuleWords;
use journal_core::Reply;
use media_map::locate;

/// The place of the host's address, where the host holds it, or why there is none.
#[inline(always)]
#[tactic(auto, using(crate::proofs::ZeroedWords::word_inside))]
pub fn granted(control: &LiveControl, host: HostId, dpa: u64) -> Result<Place, AccessFault>
    requires { host < control.now.config.hosts }
    ensures value { ByEveryPast control.now (λ past. result ≡ granted_place control.now.config (effects past) host dpa) }
    ensures inside { IfOk result (λ p. p.granule < granule_total control.now.config) }
    ensures placed { IfOk (locate control.now.config host dpa) (λ p. p.granule < granule_total control.now.config) }
{
    match locate(control.first_config(), host, dpa) {
        Ok(place) => {
            if control.holds(host, place.granule) {
                Ok(place)
            } else {
                Err(AccessFault::NotGranted)
            }
        }
        Err(fault) => Err(fault),
    }
}

/// The word at the place.
pub fn word_at(words: &GranuleWords, place: &Result<Place, AccessFault>) -> Result<u64, AccessFault>
    requires { IfOk place.now (λ p. p.granule < length words.now) }
    ensures { result ≡ word_from words.now place.now }
{
    match place {
        Ok(place) => Ok(words.read(place.granule, place.word)),
        Err(fault) => Err(*fault),
    }
}

/// Stores a word at the place, if there is one.
pub fn store_at(
    words: &mut GranuleWords,
    place: &Result<Place, AccessFault>,
    value: u64,
) -> Result<(), NoMemory>
    requires { IfOk place.now (λ p. p.granule < length words.old) }
    ensures words { OnOk result (StoresAt words.old words.new place.now value) }
    ensures granules { length words.new ≡ length words.old }
    ensures kept { OnErr result (words.new ≡ words.old) }
{
    match place {
        Ok(place) => words.write(place.granule, place.word, value),
        Err(_) => Ok(()),
    }
}

/// Why there is no place, if there is none.
pub fn refused_by(place: &Result<Place, AccessFault>) -> Option<AccessFault>
    ensures { stored_unless result ≡ store_said place.now }
{
    match place {
        Ok(_) => None,
        Err(fault) => Some(*fault),
    }
}

/// What is replied to a load that found this.
pub fn loaded(found: &Result<u64, AccessFault>) -> Reply
    ensures { result ≡ load_said found.now }
{
    match found {
        Ok(word) => Reply::Word(*word),
        Err(fault) => Reply::Refused(*fault),
    }
}

/// What is replied to a store, unless it is refused.
pub fn stored(refused: Option<AccessFault>) -> Reply
    ensures { result ≡ stored_unless refused }
{
    match refused {
        None => Reply::Stored,
        Some(fault) => Reply::Refused(fault),
    }
}
