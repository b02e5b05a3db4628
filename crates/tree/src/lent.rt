//! A tree and its configuration, lent together.

ghost use Rattle.std.specs.Prelude.{◌≡◌};

use crate::tree::Tree;
use schema::Conf;

/// A tree and the configuration that it was made with, both lent.
#[derive(Clone, Copy)]
pub struct LentTree<'a> {
    pub tree: &'a Tree,
    pub conf: &'a Conf,
    ghost same_conf: { tree.now.conf ≡ conf.now },
}

impl<'a> LentTree<'a> {
    /// A tree, with the configuration that it was made with.
    pub fn new(tree: &'a Tree, conf: &'a Conf) -> LentTree<'a>
        requires { tree.now.conf ≡ conf.now }
        ensures tree { result.tree.now ≡ tree.now }
        ensures conf { result.conf.now ≡ conf.now }
    {
        LentTree { tree, conf }
    }
}
