//! One more effect behind others.

ghost use Rattle.std.specs.Prelude.{◌≡◌, ◌++◌, ◌∷◌, ◌<◌, [], OnOk, vec_capacity, vec_len};

use cci_codec::dcd_base::NoMemory;
use journal_core::{Effect, Effects};
use std::mem::{ManuallyDrop, replace};

/// Puts an effect behind the others.
#[inline(always)]
pub fn append_effect(effects: &mut Effects, effect: Effect) -> Result<(), NoMemory>
    ensures { OnOk result (effects.new ≡ effects.old ++ effect ∷ []) }
{
    let alloc = effects.allocator();
    let mut items = replace(effects, Effects::new(alloc)).into_vec();
    make_room(&mut items)?;
    items.push_reserved(effect);
    // What stood there meanwhile has no memory that could be let go.
    let _ = ManuallyDrop::new(replace(effects, Effects::from_vec(alloc, items)));
    Ok(())
}

/// Makes room for one more effect.
#[inline(always)]
fn make_room(items: &mut Vec<Effect>) -> Result<(), NoMemory>
    ensures room { OnOk result (vec_len items.new < vec_capacity items.new) }
    ensures kept { items.new.items ≡ items.old.items }
{
    if items.len() < items.capacity() {
        return Ok(());
    }
    grow(items)
}

/// The same, in new memory.
#[cold]
#[inline(never)]
fn grow(items: &mut Vec<Effect>) -> Result<(), NoMemory>
    ensures room { OnOk result (vec_len items.new < vec_capacity items.new) }
    ensures kept { items.new.items ≡ items.old.items }
{
    Ok(items.reserve(1)?)
}
