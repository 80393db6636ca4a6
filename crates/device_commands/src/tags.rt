//! The tags of extents.

ghost use Rattle.cci_codec.specs.dcd_base.specs.Words.{has_tag};
ghost use Rattle.extent_list.specs.ExtentLists.{tags_of};
ghost use Rattle.std.specs.Prelude.{◌≡◌, ◌++◌, ◌∷◌, [], IfOk, OnOk, if◌then◌else◌};

use cci_codec::dcd_base::{Extent, NoMemory, Seq, Tag};
use extent_list::same_tag;
use std::alloc::Global;

/// Each tag of the extents once, in the order of first appearance; sixteen zero bytes too.
pub fn tags_of(alloc: Global, extents: &[Extent]) -> Result<Seq<Tag>, NoMemory>
    ensures { IfOk result (λ tags. tags ≡ tags_of extents.now) }
{
    let mut tags = Seq::with_capacity(alloc, extents.len().min(1))?;
    append_tags_of(extents, &mut tags)?;
    Ok(tags)
}

/// Puts each tag of the extents once into a list that has none yet, in the order of first appearance.
pub fn append_tags_of(extents: &[Extent], tags: &mut Seq<Tag>) -> Result<(), NoMemory>
    requires { tags.old ≡ [] }
    ensures { OnOk result (tags.new ≡ tags_of extents.now) }
{
    for i in 0..extents.len() {
        append_tag(&extents[i].tag, tags)?;
    }
    Ok(())
}

/// Puts a tag behind the others that is not among them.
fn append_tag(tag: &Tag, tags: &mut Seq<Tag>) -> Result<(), NoMemory>
    ensures { OnOk result (tags.new ≡ (if has_tag tags.old tag.now then tags.old else tags.old ++ tag.now ∷ [])) }
{
    if has_tag(tags.as_slice(), tag) {
        return Ok(());
    }
    tags.push(*tag)
}

/// Whether the tag is among those; the last one is looked at first.
fn has_tag(tags: &[Tag], tag: &Tag) -> bool
    ensures { result ≡ has_tag tags.now tag.now }
{
    match tags.last() {
        Some(last) if same_tag(tag, last) => true,
        _ => tags.iter().any(|other| same_tag(tag, other)),
    }
}
