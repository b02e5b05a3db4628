//! How often there is something of each kind.

use anyhow::Result;
use std::alloc::{AllocError, Global};
use std::collections::BTreeMap;
use std::io::Print;

/// How many there are of each kind.
#[derive(Drop)]
pub(crate) struct Counts {
    numbers: BTreeMap<String, u32>,
}

impl Counts {
    pub(crate) fn new(alloc: Global) -> Counts {
        Counts {
            numbers: BTreeMap::new(alloc),
        }
    }

    /// Counts one of this kind.
    pub(crate) fn add(&mut self, kind: String) -> Result<()> {
        if let Some(number) = self.numbers.get_mut(kind.as_str()) {
            *number = number.saturating_add(1);
            return Ok(());
        }
        match self.numbers.insert(kind, 1) {
            Ok(_) => Ok(()),
            Err(_) => Err(AllocError.into()),
        }
    }

    /// Prints each kind with its number, in the order of their texts.
    pub(crate) fn print(&self, rt: &impl Print, title: &str) -> Result<()> {
        println!(rt; "{title}:")?;
        for (kind, number) in self.numbers.iter() {
            println!(rt; "{number} {kind}")?;
        }
        Ok(())
    }
}
