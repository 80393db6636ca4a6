//! A step that is decided and not yet taken.

ghost use Rattle.std.specs.Prelude.{◌≡◌};

use cci_codec::dcd_base::{Boxed, Changes};
use journal_core::{Effects, Entry};

/// A step of the control with all the memory that it needs: `Control::apply` takes it.
#[derive(Drop)]
pub struct Plan {
    pub(crate) entry: Boxed<Entry>,
    pub(crate) changes: Changes,
}

impl Plan {
    /// The number that the entry will have among the commands and scrubs, from 1.
    pub fn number(&self) -> u64
        ensures { result ≡ self.now.entry.stamp.number }
    {
        self.entry().stamp.number
    }

    /// The entry that it will make, with the act and the reply.
    pub fn entry(&self) -> &Entry
        ensures { result.now ≡ self.now.entry }
    {
        self.entry.get()
    }

    /// The effects that its entry will have, as a list.
    pub fn effects(&self) -> &Effects
        ensures { result.now ≡ self.now.entry.effects }
    {
        &self.entry().effects
    }

    /// The runs whose holders it changes or whose words it zeroes, with the holders after it.
    pub fn changes(&self) -> &Changes
        ensures { result.now ≡ self.now.changes }
    {
        &self.changes
    }
}
