//! Paths that are put together.

ghost use Rattle.std.specs.Prelude.{◌≡◌, ◌++◌, ◌∷◌, [], IfOk};

use crate::packing::{push_single, push_step};
use crate::path::{Path, RdnKey};
use crate::type_id::TypeId;
use std::alloc::{AllocError, Global};
use std::marker::Model;

// most paths take fewer bytes
const USUAL_LEN: usize = 64;

/// A path that is put together, step by step. A contract sees it as the list of its steps.
#[derive(Drop)]
pub struct PathDraft {
    bytes: Vec<u8>,
}

impl Model for PathDraft {
    ghost use Rattle.std.specs.Prelude.{List, ℕ};
    ghost use Rattle.paths.specs.Packed.{unpack, IsPacked};

    ghost Value = { List (List (ℕ × List ℕ)) };

    ghost view = { λ d. unpack d.bytes.items };

    ghost invariant = { λ d. IsPacked d.bytes.items };
}

impl PathDraft {
    /// No step yet.
    pub fn new(alloc: Global) -> Result<PathDraft, AllocError>
        ensures { IfOk result (λ d. d ≡ []) }
    {
        Ok(PathDraft {
            bytes: Vec::with_capacity(alloc, USUAL_LEN)?,
        })
    }

    /// One step more, of one pair of a type and a normal value.
    pub fn with(self, t: TypeId, norm: &[u8]) -> Result<PathDraft, AllocError>
        ensures { IfOk result (λ d. d ≡ self ++ ((t, norm.now) ∷ []) ∷ []) }
    {
        let mut bytes = self.bytes;
        push_single(&mut bytes, t, norm)?;
        Ok(PathDraft { bytes })
    }

    /// One step more, of an RDN with this key.
    pub fn with_key(self, key: &RdnKey) -> Result<PathDraft, AllocError>
        ensures { IfOk result (λ d. d ≡ self ++ key.now ∷ []) }
    {
        let mut bytes = self.bytes;
        push_step(&mut bytes, key.pairs())?;
        Ok(PathDraft { bytes })
    }

    /// The path of these steps.
    pub fn into_path(self) -> Path
        ensures { result ≡ self }
    {
        Path::from_bytes(self.bytes)
    }
}
