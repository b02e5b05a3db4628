//! Names as values, under another suffix.

ghost use Rattle.std.specs.Prelude.{◌≡◌, ◌<◌, ◌++◌, ◌∷◌, length, IfOk};
ghost use Rattle.std.specs.Option.{option_map};
ghost use Rattle.suffixes.specs.MovedValues.{is_suffix, has_rdns, is_cut, front_of, moved_below, moved_value};

use base::Bytes;
use schema::{Conf, PathFault, read_dn};
use std::alloc::{AllocError, Global};

/// A configuration, and the name that comes in place of its suffix.
#[derive(Clone, Copy, Drop)]
pub(crate) struct NameMover<'a> {
    pub(crate) alloc: Global,
    pub(crate) conf: &'a Conf,
    pub(crate) name: &'a [u8],
}

impl NameMover<'_> {
    // whether a text is the suffix's own name, in whatever spelling
    #[tactic(auto, unfolding(crate::specs::MovedValues::is_suffix))]
    fn is_suffix(&self, text: &[u8]) -> Result<bool, AllocError>
        ensures { IfOk result (λ is. is ≡ is_suffix self.now.conf.now text.now) }
    {
        match self.conf.path_of_text(self.alloc, text) {
            Ok(path) => Ok(path.is_root()),
            Err(PathFault::Code(_)) => Ok(false),
            Err(PathFault::OutOfMemory) => Err(AllocError),
        }
    }

    // whether a text spells RDNs, one or more
    #[tactic(auto, unfolding(crate::specs::MovedValues::has_rdns))]
    fn has_rdns(&self, text: &[u8]) -> Result<bool, AllocError>
        ensures { IfOk result (λ has. has ≡ has_rdns text.now) }
    {
        match read_dn(self.alloc, text) {
            Ok(name) => Ok(!name.rdns().is_empty()),
            Err(PathFault::Code(_)) => Ok(false),
            Err(PathFault::OutOfMemory) => Err(AllocError),
        }
    }

    // whether the suffix's RDNs begin behind the byte at an index, which is a comma, and others stand before it
    #[tactic(auto, unfolding(crate::specs::MovedValues::is_cut))]
    fn is_cut(&self, text: &[u8], at: usize) -> Result<bool, AllocError>
        requires { at < length text.now }
        ensures { IfOk result (λ is. is ≡ is_cut self.now.conf.now text.now at) }
    {
        Ok(text[at] == b',' && self.is_suffix(&text[at + 1..])? && self.has_rdns(&text[..at])?)
    }

    // what stands before the comma behind which the suffix's RDNs begin
    #[tactic(auto, unfolding(crate::specs::MovedValues::front_before))]
    fn front_of<'a>(&self, text: &'a [u8]) -> Result<Option<&'a [u8]>, AllocError>
        ensures { IfOk result (λ front. option_map (λ bytes. bytes.now) front ≡ front_of self.now.conf.now text.entry.now) }
    {
        let mut at = text.len();
        while at > 0 {
            at -= 1;
            if self.is_cut(text, at)? {
                return Ok(Some(&text[..at]));
            }
        }
        Ok(None)
    }

    // RDNs as they are written, and the name behind them
    fn below_name(&self, front: &[u8]) -> Result<Bytes, AllocError>
        ensures { IfOk result (λ bytes. bytes ≡ front.now ++ 44 ∷ self.now.name.now) }
    {
        let mut moved = Vec::with_capacity(
            self.alloc,
            front
                .len()
                .saturating_add(self.name.len())
                .saturating_add(1),
        )?;
        moved.extend_from_slice(front)?;
        moved.push(b',')?;
        moved.extend_from_slice(self.name)?;
        Ok(Bytes::from_vec(moved))
    }

    // a value below the suffix
    fn moved_below(&self, value: &[u8]) -> Result<Bytes, AllocError>
        ensures { IfOk result (λ bytes. bytes ≡ moved_below self.now.conf.now self.now.name.now value.now) }
    {
        match self.front_of(value)? {
            Some(front) => self.below_name(front),
            None => Bytes::from_slice(self.alloc, value),
        }
    }

    /// A value of DN syntax: where it is the name of something at the suffix or below it, in whatever spelling, the name takes the place of its
    /// suffix. Any other value stays as it is.
    #[tactic(auto, unfolding(crate::specs::MovedValues::moved_value))]
    pub(crate) fn moved_value(&self, value: &[u8]) -> Result<Bytes, AllocError>
        ensures { IfOk result (λ bytes. bytes ≡ moved_value self.now.conf.now self.now.name.now value.now) }
    {
        match self.conf.path_of_text(self.alloc, value) {
            Ok(path) => {
                if path.is_root() {
                    Bytes::from_slice(self.alloc, self.name)
                } else {
                    self.moved_below(value)
                }
            }
            Err(PathFault::Code(_)) => Bytes::from_slice(self.alloc, value),
            Err(PathFault::OutOfMemory) => Err(AllocError),
        }
    }
}
