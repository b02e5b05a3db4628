//! Values of attribute types.

ghost use Rattle.std.specs.Prelude.{◌≡◌, ◌++◌, [], IfOk};
ghost use Rattle.matching.specs.Forms.{lower, norm};
ghost use Rattle.values.specs.Values.{norm_by};

use base::Bytes;
use matching::{Family, Form, normal_form};
use std::alloc::{AllocError, AllocFailed, Global};
use std::default::MadeWith;
use std::marker::Model;
use thiserror::Error;

// twice as many bytes need no allocation
const FEW: usize = 8;

/// A value as written, and its normal form under the equality rule of its type. A contract sees the two.
#[derive(Drop)]
pub struct Value {
    // the normal form, and behind it the value as written, unless that is the same
    bytes: Bytes,
    norm_len: usize,
}

impl Model for Value {
    ghost use Rattle.std.specs.Prelude.{◌≤◌, length, take};
    ghost use Rattle.values.specs.Values as values;
    ghost use Rattle.values.specs.Joined.{raw_in};

    ghost Value = { values.Value };

    ghost coded = { values.value_code };

    ghost view = { λ v. record { raw = raw_in v.norm_len v.bytes; norm = take v.norm_len v.bytes } };

    ghost invariant = { λ v. v.norm_len ≤ length v.bytes };
}

impl MadeWith<Global> for Value {
    ghost use Rattle.std.specs.Prelude.{◌≡◌, []};

    ghost is_made_with = { λ v. v ≡ record { raw = []; norm = [] } };

    fn made_with(alloc: Global) -> Value {
        Value {
            bytes: Bytes::from_vec(Vec::new(alloc)),
            norm_len: 0,
        }
    }
}

// a value in ASCII lower case, and behind it as written
fn lower_and_raw(alloc: Global, raw: &[u8]) -> Result<Bytes, AllocError>
    ensures { IfOk result (λ b. b ≡ lower raw.now ++ raw.now) }
{
    if raw.len() <= FEW {
        let mut few = Bytes::from_slice(alloc, raw)?;
        few.make_ascii_lowercase();
        few.extend_from_slice(raw)?;
        return Ok(few);
    }
    let mut many = Vec::with_capacity(alloc, 2 * raw.len())?;
    many.extend_from_slice(raw)?;
    many.make_ascii_lowercase();
    many.extend_from_slice(raw)?;
    Ok(Bytes::from_vec(many))
}

fn lower(alloc: Global, raw: &[u8]) -> Result<Bytes, AllocError>
    ensures { IfOk result (λ b. b ≡ lower raw.now) }
{
    let mut bytes = Bytes::from_slice(alloc, raw)?;
    bytes.make_ascii_lowercase();
    Ok(bytes)
}

// the normal form of a value; most values need no room of their own for it
fn norm(alloc: Global, family: Family, raw: &[u8]) -> Result<Bytes, AllocError>
    ensures { IfOk result (λ b. b ≡ norm family raw.now) }
{
    match Form::of(family, raw) {
        Form::AsWritten => Bytes::from_slice(alloc, raw),
        Form::LowerCase => lower(alloc, raw),
        Form::Other => normal_form(alloc, family, raw),
    }
}

/// The normal form of a value under an equality rule of this family, or its bytes without one.
pub fn norm_by(alloc: Global, equality: Option<Family>, raw: &[u8]) -> Result<Bytes, AllocError>
    ensures { IfOk result (λ v. v ≡ norm_by equality raw.now) }
{
    match equality {
        Some(family) => norm(alloc, family, raw),
        None => Bytes::from_slice(alloc, raw),
    }
}

impl Value {
    /// The value that is written so and has this normal form, which is empty where nothing is written.
    pub fn joined(norm: Bytes, raw: &[u8]) -> Result<Value, AllocError>
        requires { raw.now ≡ [] → norm ≡ [] }
        ensures { IfOk result (λ v. v ≡ record { raw = raw.now; norm = norm }) }
    {
        let norm_len = norm.len();
        let mut bytes = norm;
        if bytes.as_slice() == raw {
            return Ok(Value { bytes, norm_len });
        }
        bytes.extend_from_slice(raw)?;
        Ok(Value { bytes, norm_len })
    }

    // the value that is written so, where its type is of this family
    fn of_family(alloc: Global, family: Family, raw: &[u8]) -> Result<Value, AllocError>
        ensures { IfOk result (λ v. v ≡ record { raw = raw.now; norm = norm family raw.now }) }
    {
        let bytes = match Form::of(family, raw) {
            Form::AsWritten => Bytes::from_slice(alloc, raw)?,
            Form::LowerCase => lower_and_raw(alloc, raw)?,
            Form::Other => return Value::joined(normal_form(alloc, family, raw)?, raw),
        };
        Ok(Value {
            bytes,
            norm_len: raw.len(),
        })
    }

    fn as_written(alloc: Global, raw: &[u8]) -> Result<Value, AllocError>
        ensures { IfOk result (λ v. v ≡ record { raw = raw.now; norm = raw.now }) }
    {
        Ok(Value {
            bytes: Bytes::from_slice(alloc, raw)?,
            norm_len: raw.len(),
        })
    }

    /// The value that is written so, where its type has an equality rule of this family, or none.
    #[inline(always)]
    pub fn new(alloc: Global, equality: Option<Family>, raw: &[u8]) -> Result<Value, AllocError>
        ensures { IfOk result (λ v. v ≡ record { raw = raw.now; norm = norm_by equality raw.now }) }
    {
        match equality {
            Some(family) => Value::of_family(alloc, family, raw),
            None => Value::as_written(alloc, raw),
        }
    }

    /// The same value again.
    pub fn copy(&self, alloc: Global) -> Result<Value, AllocError>
        ensures { IfOk result (λ v. v ≡ self.now) }
    {
        Ok(Value {
            bytes: self.bytes.copy(alloc)?,
            norm_len: self.norm_len,
        })
    }

    /// The value as written.
    pub fn raw(&self) -> &[u8]
        ensures { result.now ≡ self.now.raw }
    {
        let bytes = self.bytes.as_slice();
        if bytes.len() == self.norm_len {
            bytes
        } else {
            &bytes[self.norm_len..]
        }
    }

    /// Its normal form.
    pub fn norm(&self) -> &[u8]
        ensures { result.now ≡ self.now.norm }
    {
        &self.bytes.as_slice()[..self.norm_len]
    }
}

/// Why bytes are no value of a type.
#[derive(Debug, Drop, Error)]
pub enum ValueFault {
    /// The type's syntax has no such value.
    #[error("the value is not valid for the type's syntax")]
    Invalid,
    #[error("out of memory")]
    OutOfMemory,
}

impl From<AllocError> for ValueFault {
    ghost use Rattle.std.specs.Prelude.{◌≡◌};
    ghost use Rattle.values.specs.declared.value.ValueFault.TheVariants.{OutOfMemory};

    ghost from_gives = { λ _ e. e ≡ OutOfMemory };

    fn from(_: AllocError) -> ValueFault {
        ValueFault::OutOfMemory
    }
}

impl<T: Drop> From<AllocFailed<T>> for ValueFault {
    ghost use Rattle.std.specs.Prelude.{◌≡◌};
    ghost use Rattle.values.specs.declared.value.ValueFault.TheVariants.{OutOfMemory};

    ghost from_gives = { λ _ e. e ≡ OutOfMemory };

    fn from(_: AllocFailed<T>) -> ValueFault {
        ValueFault::OutOfMemory
    }
}
