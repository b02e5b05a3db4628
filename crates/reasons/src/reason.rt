//! Why a record is refused: its first flaw, and what that flaw is of.
//!
//! Lines, controls, blocks, values and AVAs are told by their indices in the record, from 0 on; types and classes by their numbers in the
//! configuration.

use schema::TypeId;

/// What is wrong with an AVA of a name (RFC 4512, 2.3.1 and 2.3.2).
#[derive(Clone, Copy, Debug, PartialEq, Eq)]
pub enum AvaReason {
    /// No type has the name that stands there.
    UnknownType,
    /// Values of its type are names themselves.
    NameSyntax,
    /// Values of its type can't be compared: the type has no equality rule.
    NoEquality,
    /// Its type has no such value.
    BadValue,
    /// An AVA before it in its RDN is of its type.
    TypeTwice,
}

/// What is wrong with a name (RFC 4511, 4.1.3): that of the entry, a new RDN, or that of a new superior.
#[derive(Clone, Copy, Debug, PartialEq, Eq)]
pub enum NameReason {
    /// The text spells no name (RFC 4514).
    Unreadable,
    /// It has no RDN, or more than one, and is to be a new RDN.
    NotOneRdn,
    /// This AVA has a flaw. RDNs are counted from the entry's own on, and AVAs in their RDN as they are written.
    Ava {
        rdn: usize,
        ava: usize,
        why: AvaReason,
    },
    /// It doesn't end with the suffix.
    OutsideSuffix,
}

/// What is wrong with a line of an add (RFC 4511, 4.7).
#[derive(Clone, Copy, Debug, PartialEq, Eq)]
pub enum LineReason {
    /// No type has its name.
    UnknownType,
    /// Users can't change values of its type (NO-USER-MODIFICATION).
    UsersCantChange,
    /// Its type has no such value.
    BadSyntax,
    /// Its value equals that of an earlier line of its type, the one with this index.
    EqualTo { earlier: usize },
}

/// What is wrong with a block of a modify (RFC 4511, 4.6).
#[derive(Clone, Copy, Debug, PartialEq, Eq)]
pub enum BlockReason {
    /// No type has its name.
    UnknownType,
    /// Users can't change values of its type (NO-USER-MODIFICATION).
    UsersCantChange,
    /// It is to add, and has no values.
    NoValues,
    /// It has to compare values, and its type has no equality rule.
    NoEquality,
    /// It is to delete from an attribute that isn't there.
    NoAttribute,
}

/// What is wrong with a value of a block of a modify (RFC 4511, 4.6).
#[derive(Clone, Copy, Debug, PartialEq, Eq)]
pub enum ValueReason {
    /// Its type has no such value.
    BadSyntax,
    /// It is to come, and an equal one is there or comes before it.
    EqualValue,
    /// It is to go, and no equal one is there, or that went for a value before it.
    NoValue,
}

/// What is wrong with the entry as it is to be (RFC 4512, 2.4, 2.5.1 and 3.3).
#[derive(Clone, Copy, PartialEq, Eq)]
pub enum EntryReason {
    /// It has no objectClass.
    NoObjectClass,
    /// The value of objectClass with this index, of those that the entry is to have, names no class.
    UnknownClass { value: usize },
    /// This class, which objectClass names, or a superclass of it requires (MUST) this type, of which there is no value.
    LacksType { class: usize, needed: TypeId },
    /// It has this type, which none of its classes allows (MUST or MAY).
    TypeNotAllowed { found: TypeId },
    /// It has so many values of this SINGLE-VALUE type, and more than one.
    ManyValues { single: TypeId, count: usize },
}

/// Why a record is refused (RFC 4511, 4.6 to 4.9): the first of its flaws, in the order of the checks.
#[derive(Clone, Copy, PartialEq, Eq)]
pub enum Reason {
    /// This control is critical (RFC 4511, 4.1.11), and none is known.
    CriticalControl {
        control: usize,
    },
    /// The name of the entry has a flaw.
    Name(NameReason),
    /// An entry has the name.
    IsThere,
    /// The entry above it isn't there.
    NoParent,
    /// No entry has the name.
    NoEntry,
    /// Entries stand below it.
    HasChildren,
    /// A line of an add has a flaw.
    Line {
        line: usize,
        why: LineReason,
    },
    /// A block of a modify has a flaw.
    Block {
        block: usize,
        why: BlockReason,
    },
    /// A value of a block has a flaw.
    Value {
        block: usize,
        value: usize,
        why: ValueReason,
    },
    /// A value of the entry's RDN is to go: that of this AVA, as the entry's name is kept.
    NoRdnValue {
        ava: usize,
    },
    /// It is the suffix's own entry, which keeps its name.
    IsSuffix,
    /// The new RDN has a flaw.
    NewRdn(NameReason),
    /// The name of the new superior has a flaw.
    Superior(NameReason),
    /// It is to come below itself, or below an entry that is below it.
    BelowItself,
    /// No entry is where its new superior is to be, or its parent where it names none.
    NoSuperior,
    /// Another entry has the new name.
    IsTaken,
    /// The entry as it is to be has a flaw.
    Entry(EntryReason),
    /// The directory has as many entries as it can.
    Full,
}
