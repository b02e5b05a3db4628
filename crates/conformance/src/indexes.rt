//! Which index texts a case names.

use std::alloc::{AllocError, Global};

/// The index texts that a case names. Most commands leave one beside a data.ldif, and most cases don't speak of it.
#[derive(Drop)]
pub struct NamedIndexes {
    alloc: Global,
    names: Vec<String>,
}

fn is_index(name: &str) -> bool {
    name == "index.txt" || name.ends_with("/index.txt")
}

impl NamedIndexes {
    pub fn none(alloc: Global) -> NamedIndexes {
        NamedIndexes {
            alloc,
            names: Vec::new(alloc),
        }
    }

    pub fn copy(&self) -> Result<NamedIndexes, AllocError> {
        Ok(NamedIndexes {
            alloc: self.alloc,
            names: self.names.clone()?,
        })
    }

    /// A line names this file.
    pub fn add(&mut self, name: &str) -> Result<(), AllocError> {
        if !self.looks_at(name) {
            self.names.push(String::from_str(self.alloc, name)?)?;
        }
        Ok(())
    }

    /// Every file is looked at, but for index texts that no line names.
    pub fn looks_at(&self, name: &str) -> bool {
        !is_index(name) || self.names.iter().any(|named| named.as_str() == name)
    }
}
