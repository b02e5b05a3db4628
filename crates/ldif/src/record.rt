//! What a record asks for.

use crate::value::Attr;
use base::{Bytes, Sequence};

/// What the records of a text are.
#[derive(Clone, Copy, PartialEq, Eq)]
pub enum Mode {
    /// Entries.
    Content,
    /// Changes, where `add` says that a record without `changetype:` adds an entry.
    Changes { add: bool },
}

/// A control that a change comes with (RFC 2849, "control").
pub struct Control {
    pub oid: Bytes,
    pub critical: bool,
    pub value: Option<Bytes>,
}

// A call of its own, so that no other crate proves it anew.
impl Drop for Control {
    fn drop(self) {
        let Control {
            oid: _,
            critical: _,
            value: _,
        } = self;
    }
}

/// What a block of a modify does with its values.
#[derive(Clone, Copy, PartialEq, Eq)]
pub enum Op {
    Add,
    Delete,
    Replace,
}

/// A block of a modify (RFC 2849, "mod-spec").
pub struct Mod {
    pub op: Op,
    pub attr: Bytes,
    pub values: Sequence<Bytes>,
}

// A call of its own, so that no other crate proves it anew.
impl Drop for Mod {
    fn drop(self) {
        let Mod {
            op: _,
            attr: _,
            values: _,
        } = self;
    }
}

/// A record (RFC 2849, "ldif-attrval-record" and "ldif-change-record").
#[derive(Drop)]
pub enum Record<'a> {
    /// A version line alone.
    Empty,
    Content {
        dn: Bytes,
        attrs: Sequence<Attr<'a>>,
    },
    Add {
        dn: Bytes,
        controls: Sequence<Control>,
        attrs: Sequence<Attr<'a>>,
    },
    Delete {
        dn: Bytes,
        controls: Sequence<Control>,
    },
    Modify {
        dn: Bytes,
        controls: Sequence<Control>,
        mods: Sequence<Mod>,
    },
    ModRdn {
        dn: Bytes,
        controls: Sequence<Control>,
        newrdn: Bytes,
        delete_old: bool,
        new_superior: Option<Bytes>,
    },
}
