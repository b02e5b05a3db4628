//! What an index text is read with.

use crate::asked::AskedTexts;
use schema::Conf;
use std::alloc::Global;

/// The configuration, how many entries there are, the stamp of their dump, and the keys that are kept.
#[derive(Clone, Copy, Drop)]
pub(crate) struct Given<'a> {
    pub(crate) alloc: Global,
    pub(crate) conf: &'a Conf,
    pub(crate) stamp: &'a [u8],
    pub(crate) entries: usize,
    pub(crate) asked: &'a AskedTexts,
}
