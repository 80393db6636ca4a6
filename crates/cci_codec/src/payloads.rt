//! The input payload of a request.

ghost use Rattle.std.specs.Prelude.{◌≡◌, ◌<◌, ◌≤◌, [], IfOk, OnErr, OnOk, length, take};

use crate::counted::Counted;
use crate::held::Held;
use dcd_base::{Bytes, NoMemory};
use std::alloc::Global;
use std::marker::Model;

/// How many bytes lie in the value itself.
const INLINE: usize = 14;

/// How many bytes one block has: those that place one extent.
const BLOCK: usize = 72;

/// The input payload of a request, in bytes. Up to 14 bytes lie in the value itself, as those of nearly all requests do,
/// and more on the heap, up to 72 in one block.
///
/// Contracts see the bytes.
#[derive(Debug, Drop)]
pub struct Payload {
    held: Held,
}

impl Model for Payload {
    ghost use Rattle.cci_codec.specs.Payloads.{held_bytes};
    ghost use Rattle.std.specs.Prelude.{List, ℕ};

    ghost Value = { List ℕ };

    ghost view = { λ p. held_bytes p.held };
}

impl Payload {
    /// A payload of these bytes. Only more than 14 bytes take memory.
    pub fn from_slice(alloc: Global, bytes: &[u8]) -> Result<Payload, NoMemory>
        ensures value { IfOk result (λ payload. payload ≡ bytes.now) }
        ensures short { OnErr result (14 < length bytes.now) }
    {
        if bytes.len() > INLINE {
            return Payload::on_heap(alloc, bytes);
        }
        Ok(Payload {
            held: Held::Inline(Counted::of(bytes)),
        })
    }

    /// These bytes on the heap.
    #[inline(never)]
    fn on_heap(alloc: Global, bytes: &[u8]) -> Result<Payload, NoMemory>
        ensures { IfOk result (λ payload. payload ≡ bytes.now) }
    {
        if bytes.len() > BLOCK {
            return Payload::apart(alloc, Bytes::from_slice(alloc, bytes)?);
        }
        Payload::block(alloc, Counted::of(bytes))
    }

    /// So few bytes in one block.
    fn block(alloc: Global, bytes: Counted<72>) -> Result<Payload, NoMemory>
        ensures { IfOk result (λ payload. payload ≡ bytes) }
    {
        Ok(Payload {
            held: Held::Block(alloc, Box::new(alloc, bytes)?),
        })
    }

    /// The bytes on the heap.
    fn apart(alloc: Global, bytes: Bytes) -> Result<Payload, NoMemory>
        ensures { IfOk result (λ payload. payload ≡ bytes) }
    {
        Ok(Payload {
            held: Held::Apart(Box::new(alloc, bytes)?),
        })
    }

    /// No bytes. It takes no memory.
    pub fn empty() -> Payload
        ensures { result ≡ [] }
    {
        Payload {
            held: Held::Inline(Counted::none()),
        }
    }

    /// Makes it the first `count` of these bytes. Bytes on the heap stay there, and their memory is used again; only more
    /// bytes than have room take new memory, and at `NoMemory` the payload may have any bytes.
    #[inline(always)]
    pub fn fill(&mut self, alloc: Global, bytes: &[u8], count: usize) -> Result<(), NoMemory>
        requires { count ≤ length bytes.now }
        ensures { OnOk result (self.new ≡ take count bytes.now) }
    {
        match &mut self.held {
            Held::Inline(held) => {
                if count <= INLINE {
                    held.fill(bytes, count);
                    return Ok(());
                }
                self.fill_anew(alloc, bytes, count)
            }
            Held::Block(_, held) => {
                if count <= BLOCK {
                    held.as_mut().fill(bytes, count);
                    return Ok(());
                }
                self.fill_anew(alloc, bytes, count)
            }
            Held::Apart(held) => fill_list(held.as_mut(), bytes, count),
        }
    }

    /// Makes it a new payload of the first `count` of these bytes.
    #[cold]
    #[inline(never)]
    fn fill_anew(&mut self, alloc: Global, bytes: &[u8], count: usize) -> Result<(), NoMemory>
        requires { count ≤ length bytes.now }
        ensures { OnOk result (self.new ≡ take count bytes.now) }
    {
        let (front, _) = bytes.split_at(count);
        *self = Payload::from_slice(alloc, front)?;
        Ok(())
    }

    /// Its bytes.
    pub fn as_slice(&self) -> &[u8]
        ensures { result.now ≡ self.now }
    {
        match &self.held {
            Held::Inline(bytes) => bytes.as_slice(),
            Held::Block(_, bytes) => bytes.as_ref().as_slice(),
            Held::Apart(bytes) => bytes.as_ref().as_slice(),
        }
    }

    /// An equal payload. Only more than 14 bytes take memory.
    pub fn copy(&self) -> Result<Payload, NoMemory>
        ensures { IfOk result (λ copy. copy ≡ self.now) }
    {
        match &self.held {
            Held::Inline(bytes) => Ok(Payload {
                held: Held::Inline(bytes.copy()),
            }),
            Held::Block(alloc, bytes) => Payload::block(*alloc, bytes.as_ref().copy()),
            Held::Apart(bytes) => {
                let bytes = bytes.as_ref();
                Payload::apart(bytes.allocator(), bytes.copy()?)
            }
        }
    }
}

/// Makes the list the first `count` of these bytes, in the memory that it has, where they have room there.
#[inline(never)]
fn fill_list(list: &mut Bytes, bytes: &[u8], count: usize) -> Result<(), NoMemory>
    requires { count ≤ length bytes.now }
    ensures { OnOk result (list.new ≡ take count bytes.now) }
{
    let (front, _) = bytes.split_at(count);
    list.clear();
    list.extend_from_slice(front)
}
