//! Names as bytes, and RDNs as they are written (RFC 4514).

ghost use Rattle.std.specs.Prelude.{◌≡◌, ◌++◌, IfOk, OnErr, OnOk, map};
ghost use Rattle.base.specs.Extends.{Extends};
ghost use Rattle.dn.specs.Reading.{name_of};
ghost use Rattle.dn.specs.Writing.{ava_text, rdn_text, text_of};
ghost use Rattle.schema.specs.GoodRdns.{IsRdn};
ghost use Rattle.schema.specs.Names.{or_invalid, name_in, written_ava, written_rdn};
ghost use Rattle.schema.specs.Gives.{Gives};

use crate::code::Code;
use crate::conf::Conf;
use crate::fault::PathFault;
use base::Bytes;
use dn::{Name, NameFault, put_value, read_name};
use paths::TypedRdn;
use std::alloc::{AllocError, Global};
use values::{TypeId, TypeTable};

fn read_text(alloc: Global, text: &str) -> Result<Name, PathFault>
    ensures { Gives (λ n. n) result (or_invalid (name_of text.now)) }
{
    match read_name(alloc, text) {
        Ok(name) => Ok(name),
        Err(NameFault::Fault(_)) => Err(PathFault::Code(Code::InvalidDnSyntax)),
        Err(NameFault::OutOfMemory) => Err(PathFault::OutOfMemory),
    }
}

/// The name that bytes spell (RFC 4514); `InvalidDnSyntax` where they aren't UTF-8 or spell none.
#[tactic(auto, unfolding(crate::specs::Names::name_in))]
pub fn read_dn(alloc: Global, text: &[u8]) -> Result<Name, PathFault>
    ensures { Gives (λ n. n) result (name_in text.now) }
{
    match std::str::from_utf8(text) {
        Ok(text) => read_text(alloc, text),
        Err(_) => Err(PathFault::Code(Code::InvalidDnSyntax)),
    }
}

fn put_ava(types: &TypeTable, out: &mut Vec<u8>, ava: &(TypeId, Bytes)) -> Result<(), AllocError>
    ensures put { OnOk result (out.new.items ≡ out.old.items ++ ava_text (written_ava types.now ava.now)) }
    ensures kept { OnErr result (Extends out.old.items out.new.items) }
{
    let (t, value) = ava;
    out.extend_from_slice(types.printed_name(*t))?;
    out.extend_from_slice(b"=")?;
    put_value(out, value.as_slice())
}

fn put_avas(
    types: &TypeTable,
    out: &mut Vec<u8>,
    avas: &[(TypeId, Bytes)],
) -> Result<(), AllocError>
    ensures put { OnOk result (out.new.items ≡ out.old.items ++ rdn_text (written_rdn types.now avas.now)) }
    ensures kept { OnErr result (Extends out.old.items out.new.items) }
{
    let mut sign: &[u8] = b"";
    for ava in avas {
        out.extend_from_slice(sign)?;
        put_ava(types, out, ava)?;
        sign = b"+";
    }
    Ok(())
}

// RDNs with a comma between each two
fn put_rdns(types: &TypeTable, out: &mut Vec<u8>, rdns: &[TypedRdn]) -> Result<(), AllocError>
    ensures { OnOk result (out.new.items ≡ out.old.items ++ text_of (map (written_rdn types.now) rdns.now)) }
{
    let mut sign: &[u8] = b"";
    for rdn in rdns {
        out.extend_from_slice(sign)?;
        put_avas(types, out, rdn.avas())?;
        sign = b",";
    }
    Ok(())
}

/// RDNs as they stand in a name: their types by the names that they are printed by.
pub(crate) fn rdns_text(
    alloc: Global,
    types: &TypeTable,
    rdns: &[TypedRdn],
) -> Result<Bytes, AllocError>
    ensures { IfOk result (λ t. t ≡ text_of (map (written_rdn types.now) rdns.now)) }
{
    let mut out = Vec::new(alloc);
    put_rdns(types, &mut out, rdns)?;
    Ok(Bytes::from_vec(out))
}

impl Conf {
    /// Writes an RDN as it stands in a name, behind what `out` has: its types by the names that they are printed by. Where memory runs
    /// out, a beginning of it may stand there.
    pub fn put_rdn(&self, out: &mut Vec<u8>, rdn: &TypedRdn) -> Result<(), AllocError>
        requires { IsRdn self.now.types rdn.now }
        ensures put { OnOk result (out.new.items ≡ out.old.items ++ rdn_text (written_rdn self.now.types rdn.now)) }
        ensures kept { OnErr result (Extends out.old.items out.new.items) }
    {
        put_avas(self.table(), out, rdn.avas())
    }
}
