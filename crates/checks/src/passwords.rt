//! Whether a directory has passwords.

ghost use Rattle.std.specs.Prelude.{◌≡◌};
ghost use Rattle.checks.specs.Passwords.{has_type, has_passwords};

use schema::{Path, TypeId};
use std::alloc::Global;
use tree::{LentTree, Tree};

/// The OID of userPassword (RFC 4519, 2.41).
const USER_PASSWORD: &[u8] = b"2.5.4.35";

/// Whether an entry has an attribute of this type.
fn has_type(alloc: Global, tree: &Tree, t: TypeId) -> bool
    ensures { result ≡ has_type tree.now.entries t }
{
    let root = Path::root(alloc);
    let mut found = false;
    for (_, entry) in tree.range(&root) {
        found = found || entry.values(t).is_some();
    }
    found
}

/// Whether an entry has values of userPassword (RFC 4519, 2.41), by whatever name its `dir.conf` has it.
pub fn has_passwords(alloc: Global, lent: LentTree<'_>) -> bool
    ensures { result ≡ has_passwords lent.entry.conf.now.types lent.entry.tree.now.entries }
{
    match lent.conf.type_of(USER_PASSWORD) {
        Some(t) => has_type(alloc, lent.tree, t),
        None => false,
    }
}
