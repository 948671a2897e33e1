// Values that are made by steps that may fail: each step is lent the value, and the value is let go at one place.
use crate::row_fault::RowFault;
use std::alloc::Global;

/// A value to which something was done, where that was done.
pub(crate) fn given<T: Drop>(value: T, done: Result<(), RowFault>) -> Result<T, RowFault> {
    match done {
        Ok(()) => Ok(value),
        Err(fault) => Err(fault),
    }
}

/// A copy of bytes.
pub(crate) fn copy_of(alloc: Global, bytes: &[u8]) -> Result<Vec<u8>, RowFault> {
    match Vec::from_slice(alloc, bytes) {
        Ok(copy) => Ok(copy),
        Err(_) => Err(RowFault::Memory),
    }
}

/// What was put behind others, where there was memory.
pub(crate) fn added<E: Drop>(pushed: Result<(), E>) -> Result<(), RowFault> {
    match pushed {
        Ok(()) => Ok(()),
        Err(_) => Err(RowFault::Memory),
    }
}

/// Nothing to be printed, where something was done.
pub(crate) fn silent(alloc: Global, done: Result<(), RowFault>) -> Result<String, RowFault> {
    match done {
        Ok(()) => Ok(String::new(alloc)),
        Err(fault) => Err(fault),
    }
}

/// Texts, one behind the other.
pub(crate) fn joined(alloc: Global, parts: &[&str]) -> Result<String, RowFault> {
    let mut text = String::new(alloc);
    let pushed = push_parts(&mut text, parts);
    given(text, pushed)
}

/// Puts texts behind another.
pub(crate) fn push_parts(text: &mut String, parts: &[&str]) -> Result<(), RowFault> {
    for part in parts {
        text.push_str(part)?;
    }
    Ok(())
}
