//! Two directories that are compared.

ghost use Rattle.std.specs.Prelude.{◌≡◌};
ghost use Rattle.std.specs.Option.{ForSome};

use crate::comparison::Comparison;
use databases::Database;
use schema::Conf;
use std::alloc::Global;
use tree::Tree;

/// Two directories under one configuration, of which the second is to be made of the first, as far as they are compared.
#[derive(Drop)]
pub(crate) struct Differ<'a> {
    pub alloc: Global,
    pub conf: &'a Conf,
    pub before: &'a Tree,
    pub after: &'a Tree,
    pub comparison: &'a Comparison<'a>,
    ghost before_conf: { before.now.conf ≡ conf.now },
    ghost after_conf: { after.now.conf ≡ conf.now },
    ghost filter_conf: { ForSome comparison.now.filter (λ f. f.now.conf ≡ conf.now) },
}

impl<'a> Differ<'a> {
    pub(crate) fn new(
        alloc: Global,
        before: &'a Database,
        after: &'a Tree,
        comparison: &'a Comparison<'a>,
    ) -> Differ<'a>
        requires after { after.now.conf ≡ before.now.conf }
        requires filter { ForSome comparison.now.filter (λ f. f.now.conf ≡ before.now.conf) }
        ensures conf { result.conf.now ≡ before.now.conf }
        ensures before { result.before.now ≡ before.now }
        ensures after { result.after.now ≡ after.now }
        ensures comparison { result.comparison.now ≡ comparison.now }
    {
        Differ {
            alloc,
            conf: before.conf(),
            before: before.tree(),
            after,
            comparison,
        }
    }
}
