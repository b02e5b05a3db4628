//! Types by their names, as a text has them.

ghost use Rattle.std.specs.Prelude.{◌≡◌, ◌<◌, IfOk, OnOk, length, map};
ghost use Rattle.std.specs.List.{AllByRecursion, slice_split};
ghost use Rattle.base.specs.Answers.{each};
ghost use Rattle.checks.specs.TypeNames.{is_comma, type_named, types_named, put_once, each_once};
ghost use Rattle.checks.specs.Gives.{Gives};

use crate::references::is_named;
use base::Bytes;
use schema::{Conf, TypeId};
use std::alloc::{AllocError, AllocFailed, Global};

/// Why a text names no types.
#[derive(Drop)]
pub enum TypesFault {
    /// This name is no type's.
    Unknown(Bytes),
    OutOfMemory,
}

impl From<AllocError> for TypesFault {
    ghost use Rattle.std.specs.Prelude.{◌≡◌};
    ghost use Rattle.checks.specs.declared.type_names.TypesFault.TheVariants.{OutOfMemory};

    ghost from_gives = { λ _ e. e ≡ OutOfMemory };

    fn from(_: AllocError) -> TypesFault {
        TypesFault::OutOfMemory
    }
}

impl<T: Drop> From<AllocFailed<T>> for TypesFault {
    ghost use Rattle.std.specs.Prelude.{◌≡◌};
    ghost use Rattle.checks.specs.declared.type_names.TypesFault.TheVariants.{OutOfMemory};

    ghost from_gives = { λ _ e. e ≡ OutOfMemory };

    fn from(_: AllocFailed<T>) -> TypesFault {
        TypesFault::OutOfMemory
    }
}

/// What stands between commas.
fn parts_of<'a>(alloc: Global, text: &'a [u8]) -> Result<Vec<&'a [u8]>, AllocError>
    ensures { IfOk result (λ v. map (λ p. p.now) v.items ≡ slice_split is_comma text.now) }
{
    text.split(|b| *b == b',').collect(alloc)
}

/// The type with this name or OID.
fn type_named(alloc: Global, conf: &Conf, name: &[u8]) -> Result<TypeId, TypesFault>
    ensures gives { Gives (λ t. t) result (type_named conf.now.types name.now) }
    ensures known { IfOk result (λ t. t < length conf.now.types) }
{
    match conf.type_of(name) {
        Some(t) => Ok(t),
        None => Err(TypesFault::Unknown(Bytes::from_slice(alloc, name)?)),
    }
}

fn each_named(alloc: Global, conf: &Conf, names: &[&[u8]]) -> Result<Vec<TypeId>, TypesFault>
    ensures gives { Gives (λ v. v.items) result (each (type_named conf.now.types) (map (λ n. n.now) names.now)) }
    ensures known { IfOk result (λ v. AllByRecursion (λ t. t < length conf.now.types) v.items) }
{
    let mut named = Vec::with_capacity(alloc, names.len())?;
    for name in names {
        named.push(type_named(alloc, conf, name)?)?;
    }
    Ok(named)
}

/// The types that a text names, by names or OIDs without ASCII case (RFC 4512, 1.4), with commas between, in its order; or the first name that is no
/// type's, which an empty one isn't.
pub fn types_named(alloc: Global, conf: &Conf, text: &[u8]) -> Result<Vec<TypeId>, TypesFault>
    ensures gives { Gives (λ v. v.items) result (types_named conf.now.types text.now) }
    ensures known { IfOk result (λ v. AllByRecursion (λ t. t < length conf.now.types) v.items) }
{
    let names = parts_of(alloc, text)?;
    each_named(alloc, conf, names.as_slice())
}

/// Puts a type behind others, unless it is among them.
fn put_once(once: &mut Vec<TypeId>, t: TypeId) -> Result<(), AllocError>
    ensures { OnOk result (once.new.items ≡ put_once once.old.items t) }
{
    if is_named(once.as_slice(), t) {
        return Ok(());
    }
    once.push(t)?;
    Ok(())
}

/// Each of these types once, where it is named first.
pub(crate) fn each_once(alloc: Global, types: &[TypeId]) -> Result<Vec<TypeId>, AllocError>
    ensures { IfOk result (λ v. v.items ≡ each_once types.now) }
{
    let mut once = Vec::with_capacity(alloc, types.len())?;
    for t in types {
        put_once(&mut once, *t)?;
    }
    Ok(once)
}
