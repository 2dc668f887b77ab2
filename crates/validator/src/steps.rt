//! Steps of the checker that replace operands.

ghost use Rattle.std.specs.Prelude.{◌≡◌, ◌∷◌, [], OnOk, Err, Some, None};
ghost use Rattle.validator.specs.Inside.Algorithm.{pop_any, pop, join, replaced, leaves, after_i32, drops, joins, joins_next};
ghost use Rattle.validator.specs.Inside.Blocks.{Leads};

use crate::check_error::CheckError;
use crate::comparisons::can_be;
use crate::operands::Operands;
use crate::type_list::TypeList;
use wasm_ast::ValType;

/// Operands of the first types, in written order, become operands of the second.
pub fn replace<'a>(
    operands: &mut Operands<'a>,
    takes: &TypeList<'_>,
    gives: &TypeList<'a>,
) -> Result<(), CheckError>
    ensures ok { OnOk result (Leads (replaced takes.now gives.now) operands.old operands.new) }
    ensures invalid { result ≡ Err CheckError.Invalid
        → replaced takes.now gives.now operands.old.stack ≡ None }
{
    if !operands.pop_all(takes) {
        return Err(CheckError::Invalid);
    }
    operands.push_all(gives)?;
    Ok(())
}

/// The same after an i32.
pub fn replace_after_i32<'a>(
    operands: &mut Operands<'a>,
    takes: &TypeList<'_>,
    gives: &TypeList<'a>,
) -> Result<(), CheckError>
    ensures ok { OnOk result
        (Leads (after_i32 (replaced takes.now gives.now)) operands.old operands.new) }
    ensures invalid { result ≡ Err CheckError.Invalid
        → after_i32 (replaced takes.now gives.now) operands.old.stack ≡ None }
{
    if !operands.pop(ValType::I32) {
        return Err(CheckError::Invalid);
    }
    replace(operands, takes, gives)
}

/// An operand is put on top.
pub fn give(operands: &mut Operands<'_>, gives: ValType) -> Result<(), CheckError>
    ensures ok { OnOk result (Leads (replaced [] (gives ∷ [])) operands.old operands.new) }
    ensures invalid { result ≡ Err CheckError.Invalid
        → replaced [] (gives ∷ []) operands.old.stack ≡ None }
{
    operands.push(Some(gives))?;
    Ok(())
}

/// An operand is taken.
pub fn take(operands: &mut Operands<'_>, takes: ValType) -> Result<(), CheckError>
    ensures ok { OnOk result (Leads (replaced (takes ∷ []) []) operands.old operands.new) }
    ensures invalid { result ≡ Err CheckError.Invalid
        → replaced (takes ∷ []) [] operands.old.stack ≡ None }
{
    if operands.pop(takes) {
        Ok(())
    } else {
        Err(CheckError::Invalid)
    }
}

/// An operand becomes another.
pub fn convert(
    operands: &mut Operands<'_>,
    takes: ValType,
    gives: ValType,
) -> Result<(), CheckError>
    ensures ok { OnOk result
        (Leads (replaced (takes ∷ []) (gives ∷ [])) operands.old operands.new) }
    ensures invalid { result ≡ Err CheckError.Invalid
        → replaced (takes ∷ []) (gives ∷ []) operands.old.stack ≡ None }
{
    if !operands.pop(takes) {
        return Err(CheckError::Invalid);
    }
    operands.push(Some(gives))?;
    Ok(())
}

/// Two operands of a type become one.
pub fn combine(
    operands: &mut Operands<'_>,
    takes: ValType,
    gives: ValType,
) -> Result<(), CheckError>
    ensures ok { OnOk result
        (Leads (replaced (takes ∷ takes ∷ []) (gives ∷ [])) operands.old operands.new) }
    ensures invalid { result ≡ Err CheckError.Invalid
        → replaced (takes ∷ takes ∷ []) (gives ∷ []) operands.old.stack ≡ None }
{
    if !operands.pop(takes) {
        return Err(CheckError::Invalid);
    }
    convert(operands, takes, gives)
}

/// Two operands are taken, the second type on top.
pub fn take_two(operands: &mut Operands<'_>, below: ValType, top: ValType) -> Result<(), CheckError>
    ensures ok { OnOk result
        (Leads (replaced (below ∷ top ∷ []) []) operands.old operands.new) }
    ensures invalid { result ≡ Err CheckError.Invalid
        → replaced (below ∷ top ∷ []) [] operands.old.stack ≡ None }
{
    if !operands.pop(top) {
        return Err(CheckError::Invalid);
    }
    take(operands, below)
}

/// Operands of these types are taken, and what follows is not reached.
pub fn leave(operands: &mut Operands<'_>, takes: &TypeList<'_>) -> Result<(), CheckError>
    ensures ok { OnOk result (Leads (leaves takes.now) operands.old operands.new) }
    ensures invalid { result ≡ Err CheckError.Invalid → leaves takes.now operands.old.stack ≡ None }
{
    if !operands.pop_all(takes) {
        return Err(CheckError::Invalid);
    }
    operands.stop();
    Ok(())
}

/// The same after an i32.
pub fn leave_after_i32(operands: &mut Operands<'_>, takes: &TypeList<'_>) -> Result<(), CheckError>
    ensures ok { OnOk result
        (Leads (after_i32 (leaves takes.now)) operands.old operands.new) }
    ensures invalid { result ≡ Err CheckError.Invalid
        → after_i32 (leaves takes.now) operands.old.stack ≡ None }
{
    if !operands.pop(ValType::I32) {
        return Err(CheckError::Invalid);
    }
    leave(operands, takes)
}

/// The newest operand is taken, whatever its type.
pub fn discard(operands: &mut Operands<'_>) -> Result<(), CheckError>
    ensures ok { OnOk result (Leads drops operands.old operands.new) }
    ensures invalid { result ≡ Err CheckError.Invalid → drops operands.old.stack ≡ None }
{
    if operands.pop_any().is_none() {
        return Err(CheckError::Invalid);
    }
    Ok(())
}

/// `select` (3.3.2): after an i32, two operands of one type become one.
pub fn select(operands: &mut Operands<'_>) -> Result<(), CheckError>
    ensures ok { OnOk result (Leads (after_i32 joins) operands.old operands.new) }
    ensures invalid { result ≡ Err CheckError.Invalid → after_i32 joins operands.old.stack ≡ None }
{
    if !operands.pop(ValType::I32) {
        return Err(CheckError::Invalid);
    }
    let Some(first) = operands.pop_any() else {
        return Err(CheckError::Invalid);
    };
    join_next(operands, first)
}

// The next operand and this one become one.
fn join_next(operands: &mut Operands<'_>, first: Option<ValType>) -> Result<(), CheckError>
    ensures ok { OnOk result (Leads (joins_next first) operands.old operands.new) }
    ensures invalid { result ≡ Err CheckError.Invalid → joins_next first operands.old.stack ≡ None }
{
    let Some(second) = operands.pop_any() else {
        return Err(CheckError::Invalid);
    };
    let Some(joined) = join(first, second) else {
        return Err(CheckError::Invalid);
    };
    operands.push(joined)?;
    Ok(())
}

// The type of two operands, if they can have one type.
fn join(first: Option<ValType>, second: Option<ValType>) -> Option<Option<ValType>>
    ensures { result ≡ join first second }
{
    let Some(known) = first else {
        return Some(second);
    };
    if can_be(known, second) {
        Some(first)
    } else {
        None
    }
}
