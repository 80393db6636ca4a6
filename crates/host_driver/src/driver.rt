//! The driver as a machine of requests and replies.

ghost use Rattle.host_driver.specs.Driving.{gives};
ghost use Rattle.host_driver.specs.Standing.{first_standing, next_fault, taking, took_fault};
ghost use Rattle.host_driver.specs.declared.faults.DriverFault.{DriverFault};
ghost use Rattle.std.specs.Prelude.{◌≡◌, ◌≢◌, IfErr, IfOk, None, OnErr, OnOk, Some, true};

use crate::faults::DriverFault;
use crate::kept::Kept;
use cci_codec::{Request, Response};
use dcd_base::{Extent, HostId};
use std::alloc::Global;
use std::marker::Model;

/// Release Dynamic Capacity, the one command of a driver that a device may refuse.
const RELEASE: u16 = 0x4803;

/// The driver of one host: it reads the host's event log, takes what is offered where it has room for it, gives back what
/// it is asked for, and keeps the table of the host's extents.
///
/// It begins with a page of the log (Get Event Records, CXL 3.1, 8.2.9.2.2). Contracts see what it keeps and whether a
/// request is out.
#[derive(Drop)]
pub struct Driver {
    alloc: Global,
    host: HostId,
    most: u64,
    out: bool,
    kept: Kept,
}

impl Model for Driver {
    ghost use Rattle.host_driver.specs.Keeping.{kept_in};
    ghost use Rattle.host_driver.specs.Standing.{Standing};

    ghost Value = { Standing };

    ghost view = { λ d. record { host = d.host; most = d.most; out = d.out; driven = kept_in d.kept } };
}

impl Driver {
    /// A driver that has asked nothing yet. It takes no more than `most` bytes together.
    pub fn new(alloc: Global, host: HostId, most: u64) -> Driver
        ensures { result ≡ first_standing host most }
    {
        Driver {
            alloc,
            host,
            most,
            out: false,
            kept: Kept::new(alloc),
        }
    }

    /// The host whose driver it is.
    pub fn host(&self) -> HostId
        ensures { result ≡ self.now.host }
    {
        self.host
    }

    /// The host's extents, in the order in which they were accepted.
    pub fn table(&self) -> &[Extent]
        ensures { result.now ≡ self.now.driven.table }
    {
        self.kept.table.as_slice()
    }

    /// Whether the last page of the log had no record. It is so of no driver that has got no page yet.
    pub fn idle(&self) -> bool
        ensures { result ≡ self.now.driven.idle }
    {
        self.kept.idle
    }

    /// The next request, which is out from then on.
    ///
    /// `Outstanding` comes exactly where one is out already. At any fault nothing has changed.
    pub fn next(&mut self) -> Result<Request, DriverFault>
        ensures request { IfOk result (λ q. q ≡ gives self.old.most self.old.driven) }
        ensures free { OnOk result (next_fault self.old ≡ None) }
        ensures out { OnOk result (self.new ≡ record self.old { out = true }) }
        ensures fault { IfErr result (λ fault. fault ≢ DriverFault.NoMemory → next_fault self.old ≡ Some fault) }
        ensures kept { OnErr result (self.new ≡ self.old) }
    {
        if self.out {
            return Err(DriverFault::Outstanding(self.kept.opcode()));
        }
        let request = self.kept.request(self.alloc, self.most)?;
        self.out = true;
        Ok(request)
    }

    /// Takes the reply to the request that is out.
    ///
    /// The faults come in the order of `DriverFault`, each exactly in its place. At any fault nothing has changed, and
    /// the request is still out.
    pub fn took(&mut self, response: &Response) -> Result<(), DriverFault>
        ensures right { OnOk result (took_fault self.old response.now ≡ None) }
        ensures taken { OnOk result (self.new ≡ taking self.old response.now) }
        ensures fault { IfErr result (λ fault. fault ≢ DriverFault.NoMemory → took_fault self.old response.now ≡ Some fault) }
        ensures kept { OnErr result (self.new ≡ self.old) }
    {
        if !self.out {
            return Err(DriverFault::NoRequest);
        }
        let (want, have) = (self.kept.opcode(), response.opcode);
        if have != want {
            return Err(DriverFault::OtherOpcode { want, have });
        }
        if response.code != 0 && have != RELEASE {
            return Err(DriverFault::Refused {
                opcode: have,
                code: response.code,
            });
        }
        self.kept.take(self.alloc, self.most, response)?;
        self.out = false;
        Ok(())
    }
}
