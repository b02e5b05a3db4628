//! Where names stand, by calls that no command makes.

use crate::directories::conf;
use schema::{Conf, Name, TypedRdn, read_dn};
use std::alloc::Global;
use std::test::Fail;

// whether an RDN has these two types, and this value of the first
fn has_types(rdn: &TypedRdn) -> bool {
    match rdn.avas() {
        [(first, value), (second, _)] => {
            first.number() == 2 && value.as_slice() == b"Ab".as_slice() && second.number() == 1
        }
        _ => false,
    }
}

fn own_rdn_has_types(alloc: Global, conf: &Conf, name: &Name) -> Result<bool, Fail> {
    match name.rdns() {
        [own, ..] => Ok(has_types(&conf.typed_rdn(alloc, own)?)),
        [] => Ok(false),
    }
}

fn has_two_steps(alloc: Global, conf: &Conf, name: &Name) -> Result<bool, Fail> {
    Ok(conf.path_of(alloc, name)?.len() == 2)
}

fn is_placed(alloc: Global, conf: &Conf, name: &Name) -> Result<bool, Fail> {
    Ok(has_two_steps(alloc, conf, name)? && own_rdn_has_types(alloc, conf, name)?)
}

fn is_read_and_placed(alloc: Global, conf: &Conf) -> Result<bool, Fail> {
    let name = read_dn(alloc, b"cn = \\41b + dc=B , cn=a,DC=ex")?;
    is_placed(alloc, conf, &name)
}

fn is_placed_under_a_configuration(alloc: Global) -> Result<bool, Fail> {
    let conf = conf(alloc)?;
    is_read_and_placed(alloc, &conf)
}

#[test]
fn a_name_has_a_path_and_its_rdn_has_types(rt: HostRuntime) -> Result<(), Fail> {
    assert!(rt; is_placed_under_a_configuration(rt.alloc())?);
    Ok(())
}
