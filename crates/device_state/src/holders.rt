//! Who holds each granule.

ghost use Rattle.device_state.specs.Entered.{bits_set, held_in};
ghost use Rattle.std.specs.Prelude.{◌≡◌, ◌==◌, ◌<◌, ◌≤◌, IfOk, false, if◌then◌else◌, length, replicate, slice_index_or, ℕ};
ghost use Rattle.cci_codec.specs.dcd_base.specs.Hosts.{with_host, without_host};

use crate::alike::{held_so_up_to, other_from};
use cci_codec::dcd_base::{Granule, HostId, NoMemory, Run, host_bits};
use std::alloc::Global;
use std::marker::Model;

/// For each granule the hosts that hold it: bit h stands for host h. Contracts see the bits in the order of granules.
#[derive(Drop)]
pub struct Holders {
    bits: Vec<u16>,
}

impl Model for Holders {
    ghost use Rattle.std.specs.Prelude.{List, ℕ};

    ghost Value = { List ℕ };

    ghost view = { λ holders. holders.bits.items };
}

impl Holders {
    /// So many granules that nobody holds.
    pub fn new(alloc: Global, granules: u32) -> Result<Holders, NoMemory>
        ensures { IfOk result (λ holders. holders ≡ replicate granules 0) }
    {
        Ok(Holders {
            bits: vec![in alloc; 0u16; granules as usize]?,
        })
    }

    /// The hosts that hold the granule; nobody holds one past the last.
    pub fn at(&self, granule: Granule) -> u16
        ensures { result ≡ slice_index_or self.now granule 0 }
    {
        match self.bits.get(granule.0 as usize) {
            Some(bits) => *bits,
            None => 0,
        }
    }

    /// The number of the first granule behind one that has other holders, or the end. Nobody holds one past the last.
    pub fn run_end(&self, at: u32, end: u32) -> u32
        requires { at < end }
        ensures later { at < result }
        ensures within { result ≤ end }
        ensures same { (g : ℕ) → at ≤ g → g < result → slice_index_or self.now g 0 ≡ slice_index_or self.now at 0 }
        ensures other { result < end → (slice_index_or self.now result 0 == slice_index_or self.now at 0) ≡ false }
    {
        let bits = self.at(Granule(at));
        let alike = held_so_up_to(self.bits.as_slice(), bits, at, end);
        other_from(self.bits.as_slice(), bits, alike.max(at + 1), end)
    }

    /// The host holds the granules of the run from now on, or holds them no longer.
    pub fn set(&mut self, host: HostId, run: Run, held: bool)
        requires { host < 16 }
        ensures { self.new ≡ held_in (λ b. if held then with_host b host else without_host b host) run self.old }
    {
        let len = self.bits.len();
        let first = (run.first.0 as usize).min(len);
        let end = (run.first.0 as usize + run.count as usize).min(len);
        self.set_each(first, end, host, held);
    }

    /// The host holds the granules from the first up to the one before the end, or holds them no longer.
    fn set_each(&mut self, first: usize, end: usize, host: HostId, held: bool)
        requires rising { first ≤ end }
        requires within { end ≤ length self.old }
        requires host { host < 16 }
        ensures granules { length self.new ≡ length self.old }
        ensures each { (g : ℕ) → slice_index_or self.new g 0 ≡ bits_set first end host held self.old g }
    {
        set_bits(self.bits.as_mut_slice(), first, end, host, held);
    }
}

/// The host is in the sets from the first up to the one before the end, or is in them no longer. The sets lie in one slice,
/// so that many are changed at a time.
fn set_bits(bits: &mut [u16], first: usize, end: usize, host: HostId, held: bool)
    requires rising { first ≤ end }
    requires within { end ≤ length bits.old }
    requires host { host < 16 }
    ensures granules { length bits.new ≡ length bits.old }
    ensures each { (g : ℕ) → slice_index_or bits.new g 0 ≡ bits_set first end host held bits.old g }
{
    for granule in first..end {
        bits[granule] = host_bits::set(bits[granule], host, held);
    }
}
