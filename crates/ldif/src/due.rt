//! Lines of a record from place to place.

ghost use Rattle.std.specs.Prelude.{◌≡◌};
ghost use Rattle.ldif.specs.Gives.{Gives, GivesBy};
ghost use Rattle.ldif.specs.Places.{start, body_place};
ghost use Rattle.ldif.specs.Steps.{dn_told, change_told, told, ends_block, step, finish};

use crate::changes::flag_of;
use crate::control::control_of;
use crate::fault::{LdifFault, LdifFaultKind};
use crate::line::value_line;
use crate::modify::{is_dash, op_of};
use crate::record::Mode;
use crate::value::Attr;
use crate::word::{is_word, same_name};
use base::{Bytes, without_end};
use std::alloc::Global;

/// What may stand at a place of a record (RFC 2849, "Formal Syntax Definition of LDIF").
#[derive(Drop)]
pub enum Due {
    /// `version:` or `dn:`, in a text's first record.
    TextStart,
    /// `dn:`, behind `version:`, or nothing.
    AfterVersion,
    /// `dn:`, in any other record.
    RecordStart,
    /// Attributes of a content record.
    Contents,
    /// `control:` or `changetype:`; where `add` says so, attributes of an entry to add instead.
    Changes { add: bool },
    /// Attributes of an entry to add.
    Attributes,
    /// The first line of a block, `add:`, `delete:` or `replace:`.
    BlockStart,
    /// Values of this attribute of a block, or `-`.
    BlockValues(Bytes),
    /// `newrdn:`
    NewName,
    /// `deleteoldrdn:`
    DeleteOld,
    /// `newsuperior:`, or nothing.
    NewSuperior,
    /// Nothing.
    Over,
}

impl Due {
    ghost use Rattle.ldif.specs.Dues.{place_of};

    /// Where a record begins.
    pub(crate) fn start(first: bool) -> Due
        ensures { place_of result ≡ start first }
    {
        if first {
            Due::TextStart
        } else {
            Due::RecordStart
        }
    }

    // Behind `dn:`.
    fn body(mode: Mode) -> Due
        ensures { place_of result ≡ body_place mode }
    {
        match mode {
            Mode::Content => Due::Contents,
            Mode::Changes { add } => Due::Changes { add },
        }
    }

    #[tactic(auto, unfolding(crate::specs::Steps::dn_told))]
    fn behind_dn(mode: Mode, attr: &Attr<'_>) -> Result<Due, LdifFault>
        ensures { GivesBy place_of result (dn_told mode attr.now) }
    {
        if same_name(attr.name(), b"dn") {
            Ok(Due::body(mode))
        } else {
            Err(LdifFault::Fault(LdifFaultKind::DnMissing))
        }
    }

    #[tactic(auto, unfolding(crate::specs::Steps::told))]
    fn behind_first(mode: Mode, attr: &Attr<'_>) -> Result<Due, LdifFault>
        ensures { GivesBy place_of result (told mode (place_of Due.TextStart) attr.now) }
    {
        if !same_name(attr.name(), b"version") {
            return Due::behind_dn(mode, attr);
        }
        if attr.value() == b"1".as_slice() {
            Ok(Due::AfterVersion)
        } else {
            Err(LdifFault::Fault(LdifFaultKind::Version))
        }
    }

    #[tactic(auto, unfolding(crate::specs::Steps::change_told))]
    fn behind_change(word: &[u8]) -> Result<Due, LdifFault>
        ensures { GivesBy place_of result (change_told word.now) }
    {
        if is_word(word, b"add") {
            Ok(Due::Attributes)
        } else if is_word(word, b"delete") {
            Ok(Due::Over)
        } else if is_word(word, b"modify") {
            Ok(Due::BlockStart)
        } else if is_word(word, b"modrdn") {
            Ok(Due::NewName)
        } else if is_word(word, b"moddn") {
            Ok(Due::NewName)
        } else {
            Err(LdifFault::Fault(LdifFaultKind::ChangetypeUnknown))
        }
    }

    #[tactic(auto, unfolding(crate::specs::Steps::told))]
    fn behind_changes(
        alloc: Global,
        mode: Mode,
        add: bool,
        attr: &Attr<'_>,
    ) -> Result<Due, LdifFault>
        ensures { GivesBy place_of result (told mode (place_of (Due.Changes add)) attr.now) }
    {
        if same_name(attr.name(), b"control") {
            let _ = control_of(alloc, attr.value())?;
            return Ok(Due::Changes { add });
        }
        if same_name(attr.name(), b"changetype") {
            return Due::behind_change(attr.value());
        }
        if !add {
            return Err(LdifFault::Fault(LdifFaultKind::ChangetypeMissing));
        }
        Ok(Due::Attributes)
    }

    #[tactic(auto, unfolding(crate::specs::Steps::told))]
    fn behind_block_start(alloc: Global, mode: Mode, attr: &Attr<'_>) -> Result<Due, LdifFault>
        ensures { GivesBy place_of result (told mode (place_of Due.BlockStart) attr.now) }
    {
        let _ = op_of(attr.name())?;
        let name = Bytes::from_slice(alloc, without_end(attr.value()))?;
        Ok(Due::BlockValues(name))
    }

    #[tactic(auto, unfolding(crate::specs::Steps::told))]
    fn behind_value(
        alloc: Global,
        mode: Mode,
        name: &Bytes,
        attr: &Attr<'_>,
    ) -> Result<Due, LdifFault>
        ensures { GivesBy place_of result (told mode (place_of (Due.BlockValues name.now)) attr.now) }
    {
        if !same_name(attr.name(), name.as_slice()) {
            return Err(LdifFault::Fault(LdifFaultKind::OtherAttribute));
        }
        Ok(Due::BlockValues(name.copy(alloc)?))
    }

    #[tactic(auto, unfolding(crate::specs::Steps::told))]
    fn behind_delete_old(mode: Mode, attr: &Attr<'_>) -> Result<Due, LdifFault>
        ensures { GivesBy place_of result (told mode (place_of Due.DeleteOld) attr.now) }
    {
        if !same_name(attr.name(), b"deleteoldrdn") {
            return Err(LdifFault::Fault(LdifFaultKind::PartMissing));
        }
        let _ = flag_of(attr.value())?;
        Ok(Due::NewSuperior)
    }

    // Behind a line of this name and value.
    #[tactic(auto, unfolding(crate::specs::Steps::told))]
    fn behind(&self, alloc: Global, mode: Mode, attr: &Attr<'_>) -> Result<Due, LdifFault>
        ensures { GivesBy place_of result (told mode (place_of self.now) attr.now) }
    {
        match self {
            Due::TextStart => Due::behind_first(mode, attr),
            Due::AfterVersion => Due::behind_dn(mode, attr),
            Due::RecordStart => Due::behind_dn(mode, attr),
            Due::Contents => {
                if same_name(attr.name(), b"changetype") {
                    return Err(LdifFault::Fault(LdifFaultKind::ChangetypeInContent));
                }
                Ok(Due::Contents)
            }
            Due::Changes { add } => Due::behind_changes(alloc, mode, *add, attr),
            Due::Attributes => Ok(Due::Attributes),
            Due::BlockStart => Due::behind_block_start(alloc, mode, attr),
            Due::BlockValues(name) => Due::behind_value(alloc, mode, name, attr),
            Due::NewName => {
                if same_name(attr.name(), b"newrdn") {
                    return Ok(Due::DeleteOld);
                }
                Err(LdifFault::Fault(LdifFaultKind::PartMissing))
            }
            Due::DeleteOld => Due::behind_delete_old(mode, attr),
            Due::NewSuperior => {
                if same_name(attr.name(), b"newsuperior") {
                    return Ok(Due::Over);
                }
                Err(LdifFault::Fault(LdifFaultKind::StrayLine))
            }
            Due::Over => Err(LdifFault::Fault(LdifFaultKind::StrayLine)),
        }
    }

    // Whether a line ends a block, where it may.
    fn ends_block(&self, line: &[u8]) -> bool
        ensures { result ≡ ends_block (place_of self.now) line.now }
    {
        match self {
            Due::BlockValues(_) => is_dash(line),
            _ => false,
        }
    }

    /// What is due behind a line.
    #[tactic(auto, unfolding(crate::specs::Steps::step))]
    pub(crate) fn next(&self, alloc: Global, mode: Mode, line: &[u8]) -> Result<Due, LdifFault>
        ensures { GivesBy place_of result (step mode (place_of self.now) line.now) }
    {
        if self.ends_block(line) {
            return Ok(Due::BlockStart);
        }
        let attr = value_line(alloc, line)?;
        self.behind(alloc, mode, &attr)
    }

    /// The fault of a record that ends here, where more is due.
    #[tactic(auto, unfolding(crate::specs::Steps::finish))]
    pub(crate) fn end(&self) -> Result<(), LdifFault>
        ensures { Gives result (finish (place_of self.now)) }
    {
        match self {
            Due::TextStart => Err(LdifFault::Fault(LdifFaultKind::DnMissing)),
            Due::RecordStart => Err(LdifFault::Fault(LdifFaultKind::DnMissing)),
            Due::Changes { add: false } => Err(LdifFault::Fault(LdifFaultKind::ChangetypeMissing)),
            Due::NewName => Err(LdifFault::Fault(LdifFaultKind::PartMissing)),
            Due::DeleteOld => Err(LdifFault::Fault(LdifFaultKind::PartMissing)),
            _ => Ok(()),
        }
    }
}
