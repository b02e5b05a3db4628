//! What check warns of beside the contents of a directory's files.
ghost use Rattle.std.specs.Prelude.{◌≡◌, ◌++◌, string_bytes, IfSome, OnOk};
ghost use Rattle.std.specs.List.{flat_map};
ghost use Rattle.commands.specs.Checks.{draft_warning};

use crate::database::path;
use checks::put_report;
use folders::Folder;
use std::alloc::{AllocError, Global};

/// Warns of a draft of this name.
fn warn_of_draft(out: &mut Vec<u8>, draft: &String) -> Result<(), AllocError>
    ensures { OnOk result (out.new.items ≡ out.old.items ++ draft_warning (string_bytes draft.now)) }
{
    put_report(
        out,
        "warning",
        draft.as_bytes(),
        b"a draft that a killed run left; the next store removes it",
    )
}

/// Warns of drafts of a file.
fn warn_of_each(out: &mut Vec<u8>, drafts: &[String]) -> Result<(), AllocError>
    ensures { OnOk result (out.new.items ≡ out.old.items ++ flat_map (λ s. draft_warning (string_bytes s)) drafts.now) }
{
    for draft in drafts {
        warn_of_draft(out, draft)?;
    }
    Ok(())
}

/// Warns of drafts that runs which were killed left of a file.
fn warn_of_drafts<F: Folder>(
    alloc: Global,
    folder: &F,
    db: &str,
    file: &str,
    out: &mut Vec<u8>,
) -> Result<(), AllocError>
    ensures { OnOk result (IfSome (F.files folder.now) (λ _. out.new.items ≡ out.old.items)) }
{
    let name = path(alloc, db, file)?;
    let drafts = folder.left_drafts(name.as_str())?;
    warn_of_each(out, drafts.as_slice())
}

/// Warns where others than its owner have permissions for a file of a directory that has passwords.
fn warn_of_permissions<F: Folder>(
    alloc: Global,
    folder: &F,
    db: &str,
    file: &str,
    out: &mut Vec<u8>,
) -> Result<(), AllocError>
    ensures { OnOk result (IfSome (F.files folder.now) (λ _. out.new.items ≡ out.old.items)) }
{
    let name = path(alloc, db, file)?;
    if !folder.is_open_to_others(name.as_str()) {
        return Ok(());
    }
    put_report(
        out,
        "warning",
        file.as_bytes(),
        b"others than its owner have permissions, and there are values of userPassword",
    )
}

/// Warns of what is wrong with the stored files of a directory beside what stands in them: drafts that runs which were killed left, and, where it has
/// passwords, permissions for others than the owner.
pub fn warn_of_files<F: Folder>(
    alloc: Global,
    folder: &F,
    db: &str,
    has_passwords: bool,
    out: &mut Vec<u8>,
) -> Result<(), AllocError>
    ensures { OnOk result (IfSome (F.files folder.now) (λ _. out.new.items ≡ out.old.items)) }
{
    warn_of_drafts(alloc, folder, db, "data.ldif", out)?;
    warn_of_drafts(alloc, folder, db, "index.txt", out)?;
    if !has_passwords {
        return Ok(());
    }
    warn_of_permissions(alloc, folder, db, "data.ldif", out)?;
    warn_of_permissions(alloc, folder, db, "index.txt", out)
}
