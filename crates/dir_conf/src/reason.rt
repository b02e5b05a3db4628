//! What a fault of a configuration is of.

ghost use Rattle.std.specs.Prelude.{◌≡◌};
ghost use Rattle.dir_conf.specs.Flaws.{kind_of};

use crate::conf_fault::ConfFaultKind;
use base::Bytes;
use schema::IndexKind;

/// A field of a definition that names what is defined above.
#[derive(Clone, Copy, Debug, PartialEq, Eq)]
pub enum NameField {
    /// SUP
    Superior,
    /// MUST
    Must,
    /// MAY
    May,
}

/// A matching rule that needs one syntax.
#[derive(Clone, Copy, Debug, PartialEq, Eq)]
pub enum SyntaxRule {
    /// integerMatch needs Integer syntax.
    Integer,
    /// distinguishedNameMatch needs DN syntax.
    Name,
}

/// Where a definition can't be read. Words are as written.
#[derive(Drop)]
pub enum UnreadPart {
    /// No `(` with a numeric OID behind it stands at its front.
    Head,
    /// No field begins with this word.
    NoField { word: Bytes },
    /// What stands behind the word of this field isn't what it takes, or a name in it isn't allowed.
    Field { word: Bytes },
    /// This field stands twice.
    Again { word: Bytes },
    /// Neither SYNTAX nor SUP stands in the definition of a type.
    NoSyntax,
    /// No `)` ends it, or more stands behind that.
    End,
}

/// What is wrong with a line of a configuration, and with what of it. Names, OIDs and other words are as written; `of` is the type or
/// class that is defined there, by its first name, or its OID where it has none.
#[derive(Drop)]
pub enum ConfFlaw {
    /// C1: the line's first word is no keyword.
    Keyword {
        word: Bytes,
    },
    /// C2: the line begins with a space or tab, and continues none.
    Indented,
    /// C2: the definition can't be read. `of` is its first name or its OID, where one of them can be.
    Unread {
        of: Option<Bytes>,
        part: UnreadPart,
    },
    /// C2: an index line hasn't two words with a list in each, or a member of a list is empty.
    Lists,
    /// C3: a name or the OID is that of a type or class above, or the name stands twice in the definition.
    Twice {
        of: Bytes,
        word: Bytes,
    },
    /// C4: a field names what isn't defined above.
    UnknownName {
        of: Bytes,
        field: NameField,
        word: Bytes,
    },
    /// C4: an index line names a type that isn't defined.
    UnknownIndexed {
        word: Bytes,
    },
    /// C5: the type doesn't go with the type that it is derived from.
    Subtype {
        of: Bytes,
        superior: Bytes,
    },
    /// C6: the type's equality rule needs another syntax. The rule and the syntax are as they are stated; what isn't is taken from the
    /// type above.
    RuleSyntax {
        of: Bytes,
        rule: SyntaxRule,
        stated_rule: Option<Bytes>,
        stated_syntax: Option<Bytes>,
    },
    /// C7: no line says a suffix.
    NoSuffix,
    /// C7: a suffix is said above.
    SecondSuffix,
    /// C7: the suffix is no name of types that are defined; `part` is its first RDN that isn't, or the whole.
    BadSuffix {
        part: Bytes,
    },
    /// C8: no kind of index is called so.
    UnknownKind {
        word: Bytes,
    },
    /// C8: the type of this name has no rule for this kind of index.
    NoRule {
        word: Bytes,
        kind: IndexKind,
    },
    /// C9: the type is COLLECTIVE.
    Collective {
        of: Bytes,
    },
    /// C10: 65,535 types stand above this one.
    TooManyTypes {
        of: Bytes,
    },
}

impl ConfFlaw {
    /// The kind of fault that it is.
    pub fn kind(&self) -> ConfFaultKind
        ensures { result ≡ kind_of self.now }
    {
        match self {
            ConfFlaw::Keyword { .. } => ConfFaultKind::Keyword,
            ConfFlaw::Indented | ConfFlaw::Unread { .. } | ConfFlaw::Lists => ConfFaultKind::Form,
            ConfFlaw::Twice { .. } => ConfFaultKind::Twice,
            ConfFlaw::UnknownName { .. } | ConfFlaw::UnknownIndexed { .. } => {
                ConfFaultKind::UnknownName
            }
            ConfFlaw::Subtype { .. } => ConfFaultKind::Subtype,
            ConfFlaw::RuleSyntax { .. } => ConfFaultKind::RuleSyntax,
            ConfFlaw::NoSuffix | ConfFlaw::SecondSuffix | ConfFlaw::BadSuffix { .. } => {
                ConfFaultKind::Suffix
            }
            ConfFlaw::UnknownKind { .. } | ConfFlaw::NoRule { .. } => ConfFaultKind::Index,
            ConfFlaw::Collective { .. } => ConfFaultKind::Collective,
            ConfFlaw::TooManyTypes { .. } => ConfFaultKind::TooManyTypes,
        }
    }
}

/// Why a text is no configuration, with what its fault is of.
pub struct ConfReason {
    /// The line at fault, as the fault of reading has it: the first one of a definition, or 0 where no line says a suffix.
    pub line: u64,
    /// The line of the text on which the word stands that the flaw is of, or else that of the definition.
    pub word_line: u64,
    pub flaw: ConfFlaw,
}

// A call of its own, so that no other crate proves it anew.
impl Drop for ConfReason {
    fn drop(self) {
        let ConfReason {
            line: _,
            word_line: _,
            flaw: _,
        } = self;
    }
}
