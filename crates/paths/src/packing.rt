//! The bytes of a packed path: codes of types and values that keep their order.

ghost use Rattle.std.specs.Prelude.{◌≡◌, ◌++◌, ◌∷◌, [], OnOk, nat_lt};
ghost use Rattle.std.specs.List.{flat_map, list_all};
ghost use Rattle.paths.specs.Packed.{byte_code, value_code, type_code, pair_code, step_code};

use crate::type_id::TypeId;
use base::Bytes;
use std::alloc::AllocError;

/// What ends a value. It is below each byte of a value's code, so that a beginning comes first.
const VALUE_END: u8 = 1;

/// What ends a step, below all else.
pub(crate) const STEP_END: u8 = 0;

#[tactic(auto, unfolding(crate::specs::Packed::byte_code))]
fn push_byte(out: &mut Vec<u8>, byte: u8) -> Result<(), AllocError>
    ensures { OnOk result (out.new.items ≡ out.old.items ++ byte_code byte) }
{
    if byte < 3 {
        out.push(2)?;
        out.push(byte + 2)?;
    } else {
        out.push(byte)?;
    }
    Ok(())
}

fn are_themselves(bytes: &[u8]) -> bool
    ensures { result ≡ list_all (λ b. nat_lt 2 b) bytes.now }
{
    bytes.iter().all(|b| 2 < *b)
}

// a text goes in as it is
fn push_bytes(out: &mut Vec<u8>, bytes: &[u8]) -> Result<(), AllocError>
    ensures { OnOk result (out.new.items ≡ out.old.items ++ flat_map byte_code bytes.now) }
{
    if are_themselves(bytes) {
        out.extend_from_slice(bytes)?;
        return Ok(());
    }
    for byte in bytes {
        push_byte(out, *byte)?;
    }
    Ok(())
}

#[tactic(auto, unfolding(crate::specs::Packed::value_code))]
fn push_value(out: &mut Vec<u8>, value: &[u8]) -> Result<(), AllocError>
    ensures { OnOk result (out.new.items ≡ out.old.items ++ value_code value.now) }
{
    push_bytes(out, value)?;
    out.push(VALUE_END)?;
    Ok(())
}

// three digits
#[tactic(auto, unfolding(crate::specs::Packed::type_code))]
fn push_type(out: &mut Vec<u8>, t: TypeId) -> Result<(), AllocError>
    ensures { OnOk result (out.new.items ≡ out.old.items ++ type_code t) }
{
    let number = t.number();
    out.push((number / 254 / 254) as u8 + 2)?;
    out.push((number / 254 % 254) as u8 + 2)?;
    out.push((number % 254) as u8 + 2)?;
    Ok(())
}

#[tactic(auto, unfolding(crate::specs::Packed::pair_code))]
fn push_pair(out: &mut Vec<u8>, t: TypeId, value: &[u8]) -> Result<(), AllocError>
    ensures { OnOk result (out.new.items ≡ out.old.items ++ pair_code (t, value.now)) }
{
    push_type(out, t)?;
    push_value(out, value)
}

/// The code of a step of one pair.
#[tactic(auto, unfolding(crate::specs::Packed::step_code))]
pub(crate) fn push_single(out: &mut Vec<u8>, t: TypeId, value: &[u8]) -> Result<(), AllocError>
    ensures { OnOk result (out.new.items ≡ out.old.items ++ step_code ((t, value.now) ∷ [])) }
{
    push_pair(out, t, value)?;
    out.push(STEP_END)?;
    Ok(())
}

/// The code of a step with these pairs.
#[tactic(auto, unfolding(crate::specs::Packed::step_code))]
pub(crate) fn push_step(out: &mut Vec<u8>, pairs: &[(TypeId, Bytes)]) -> Result<(), AllocError>
    ensures { OnOk result (out.new.items ≡ out.old.items ++ step_code pairs.now) }
{
    for (t, value) in pairs {
        push_pair(out, *t, value.as_slice())?;
    }
    out.push(STEP_END)?;
    Ok(())
}
