//! A configuration with another suffix.

ghost use Rattle.std.specs.Prelude.{◌≡◌, Ok};
ghost use Rattle.schema.specs.Gives.{Gives};
ghost use Rattle.suffixes.specs.Configurations.{suffix_in, conf_under};

use crate::copies::{classes_of, slots_of, types_of};
use base::Sequence;
use dn::spelled_names_are_read;
use paths::TypedRdn;
use schema::{Code, Conf, PathFault, rdns_in};
use std::alloc::Global;
use values::TypeTable;

// the RDNs that a text spells as a suffix
#[tactic(auto, unfolding(crate::specs::Configurations::suffix_in))]
fn suffix_in(alloc: Global, types: &TypeTable, text: &[u8]) -> Result<Sequence<TypedRdn>, PathFault>
    ensures { Gives (λ rdns. rdns) result (suffix_in types.now text.now) }
{
    match rdns_in(alloc, types, text) {
        Ok(rdns) => {
            if rdns.as_slice().is_empty() {
                Err(PathFault::Code(Code::InvalidDnSyntax))
            } else {
                Ok(rdns)
            }
        }
        Err(fault) => Err(fault),
    }
}

/// The same configuration with the suffix that a text spells: one RDN or more. The fault of a text that spells none is `InvalidDnSyntax`, or that
/// of the first AVA that has one, as `Conf::locate` answers it.
pub fn conf_under(alloc: Global, conf: &Conf, text: &[u8]) -> Result<Conf, PathFault>
    ensures { Gives (λ c. c) result (conf_under conf.now text.now) }
{
    conf.rules_are_kept();
    spelled_names_are_read();
    let types = types_of(alloc, conf)?;
    let suffix = suffix_in(alloc, &types, text)?;
    let slots = slots_of(alloc, conf)?;
    let classes = classes_of(alloc, conf)?;
    Ok(Conf::new(alloc, types, suffix, slots, classes)?)
}
