//! The law on devices behind a tunnel.

ghost use Rattle.tunnel_fabric.specs.declared.fabric_scripts.FabricScript.{FabricScript};
ghost use Rattle.std.specs.Prelude.{ℕ};
ghost use Rattle.tunnel_fabric.specs.Worlds.{SameJournals};

/// Two fabrics that have the same configuration for a device and send it the same leave it equal journals, whatever goes
/// to the other devices. It does nothing.
pub fn law_devices()
    ensures { (left right : FabricScript) (number : ℕ) → SameJournals left right number }
{}
