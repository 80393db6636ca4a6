//! Live tags in words.

ghost use Rattle.dcd_base.specs.Layouts.{number_at};
ghost use Rattle.dcd_base.specs.Payloads.{tag_at};
ghost use Rattle.explainer.specs.PartWords.{host_where, hosts_below, hosts_words, live_tag_words};
ghost use Rattle.std.specs.Int.{w16};
ghost use Rattle.std.specs.Prelude.{◌≡◌, ◌+◌, ◌<◌, ◌≤◌, ◌++◌, OnOk, codes, length};
ghost use Rattle.script_text.specs.text_lines.specs.Pairs.{tag_text};

use crate::parts::{write_label_where, write_labelled};
use dcd_base::{Bytes, HostId, NoMemory, flag_at, host_bits, tag_at, u16_at};
use script_text::text_lines::write_tag;

/// Appends a host where it is in the set.
#[tactic(auto, unfolding(crate::specs::PartWords::host_where))]
fn write_host_where(hosts: u16, host: u8, out: &mut Bytes) -> Result<(), NoMemory>
    requires { host < 16 }
    ensures { OnOk result (out.new ≡ out.old ++ host_where hosts host) }
{
    if host_bits::has(hosts, HostId(host)) {
        write_labelled(b" h", u64::from(host), out)
    } else {
        Ok(())
    }
}

/// Appends the hosts of a set.
fn write_all_hosts(hosts: u16, out: &mut Bytes) -> Result<(), NoMemory>
    ensures { OnOk result (out.new ≡ out.old ++ hosts_below hosts 16) }
{
    for host in 0..16u8 {
        write_host_where(hosts, host, out)?;
    }
    Ok(())
}

/// Appends a label and the hosts of a set, or nothing for none.
#[tactic(auto, unfolding(crate::specs::PartWords::hosts_words))]
fn write_hosts(label: &[u8], hosts: u16, out: &mut Bytes) -> Result<(), NoMemory>
    ensures { OnOk result (out.new ≡ out.old ++ hosts_words label.now hosts) }
{
    if hosts == 0 {
        return Ok(());
    }
    out.extend_from_slice(label)?;
    write_all_hosts(hosts, out)
}

/// Appends a tag.
fn write_its_tag(bytes: &[u8], out: &mut Bytes) -> Result<(), NoMemory>
    requires { 24 ≤ length bytes.now }
    ensures { OnOk result (out.new ≡ out.old ++ (codes "tag " ++ tag_text (tag_at bytes.now 0))) }
{
    let tag = tag_at(bytes, 0);
    out.extend_from_slice(b"tag ")?;
    write_tag(&tag, out)
}

/// Appends a label and the hosts of the set that two bytes at a place are, or nothing for none.
fn write_hosts_at(label: &[u8], bytes: &[u8], at: usize, out: &mut Bytes) -> Result<(), NoMemory>
    requires { at + 2 ≤ length bytes.now }
    ensures { OnOk result (out.new ≡ out.old ++ hosts_words label.now (number_at w16 bytes.now at)) }
{
    write_hosts(label, u16_at(bytes, at), out)
}

/// Appends the twenty-four bytes of a live tag: who holds it, who is offered it, and whether the manager refers to it.
#[tactic(auto, unfolding(crate::specs::PartWords::live_tag_words))]
pub(crate) fn write_live_tag(bytes: &[u8], out: &mut Bytes) -> Result<(), NoMemory>
    requires { 24 ≤ length bytes.now }
    ensures { OnOk result (out.new ≡ out.old ++ live_tag_words bytes.now) }
{
    write_its_tag(bytes, out)?;
    write_hosts_at(b", held by", bytes, 16, out)?;
    write_hosts_at(b", offered to", bytes, 18, out)?;
    write_label_where(flag_at(bytes, 20), b", referenced", out)
}
