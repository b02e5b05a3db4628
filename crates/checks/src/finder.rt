//! A directory in which references are looked for.

ghost use Rattle.std.specs.Prelude.{◌≡◌};

use schema::{Conf, TypeId};
use std::alloc::Global;
use tree::Tree;

/// Looks for references that dangle.
#[derive(Drop)]
pub(crate) struct Finder<'a> {
    pub alloc: Global,
    pub conf: &'a Conf,
    pub tree: &'a Tree,
    /// The types that are looked at; all, where there is none.
    pub named: &'a [TypeId],
    ghost same_conf: { tree.now.conf ≡ conf.now },
}
