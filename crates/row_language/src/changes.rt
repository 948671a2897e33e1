// Changes of the bytes of a file.
use crate::lent::copy_of;
use crate::row_fault::RowFault;
use crate::words::Words;
use std::alloc::Global;

/// Changes a file as the words that are left say.
pub(crate) fn change(
    alloc: Global,
    first: &str,
    file: &mut Vec<u8>,
    words: &mut Words<'_, '_>,
) -> Result<(), RowFault> {
    match first {
        "put" => put_numbers(file, words),
        "numbers" => put_rising(file, words),
        "copy" => copy(alloc, file, words),
        _ => resize(file, words),
    }
}

/// Gives a file the length that the next word says.
fn resize(file: &mut Vec<u8>, words: &mut Words<'_, '_>) -> Result<(), RowFault> {
    let len = words.number()?;
    file.resize(len as usize, 0)?;
    Ok(())
}

/// Puts bytes at a place, and answers where they end.
fn put_bytes(file: &mut [u8], at: usize, bytes: &[u8]) -> Result<usize, RowFault> {
    for (i, byte) in bytes.iter().enumerate() {
        match file.get_mut(at.saturating_add(i)) {
            Some(place) => *place = *byte,
            None => return Err(RowFault::BeyondEnd),
        }
    }
    Ok(at.saturating_add(bytes.len()))
}

/// Puts a number of so many bytes at a place, the lowest byte first, and answers where it ends.
fn put_number(file: &mut [u8], at: usize, width: u64, number: u64) -> Result<usize, RowFault> {
    let fits = match width {
        1..=7 => number < 1 << (8 * width),
        8 => true,
        _ => false,
    };
    let bytes = number.to_le_bytes();
    match bytes.get(..width as usize) {
        Some(low) if fits => put_bytes(file, at, low),
        _ => Err(RowFault::NoWidth),
    }
}

/// Puts the number that the next word says, and answers where it ends.
fn put_next(
    file: &mut [u8],
    at: usize,
    width: u64,
    words: &mut Words<'_, '_>,
) -> Result<usize, RowFault> {
    let number = words.number()?;
    put_number(file, at, width, number)
}

/// Puts numbers from a place on, one behind the other.
fn put_numbers(file: &mut [u8], words: &mut Words<'_, '_>) -> Result<(), RowFault> {
    let [at, width] = words.numbers::<2>()?;
    let mut place = put_next(file, at as usize, width, words)?;
    for _ in 0..file.len() {
        if !words.has_more() {
            break;
        }
        place = put_next(file, place, width, words)?;
    }
    Ok(())
}

/// Puts numbers from a place on, each greater than the one before by a step.
fn put_rising(file: &mut [u8], words: &mut Words<'_, '_>) -> Result<(), RowFault> {
    let [at, count, width, first, step] = words.numbers::<5>()?;
    let mut place = at as usize;
    let mut number = first;
    for _ in 0..count {
        place = put_number(file, place, width, number)?;
        number = number.saturating_add(step);
    }
    Ok(())
}

/// Puts bytes of the file at another place.
fn copy(alloc: Global, file: &mut [u8], words: &mut Words<'_, '_>) -> Result<(), RowFault> {
    let [from, len, to] = words.numbers::<3>()?;
    let bytes = part_of(alloc, file, from as usize, len as usize)?;
    let put = put_bytes(file, to as usize, &bytes);
    drop(bytes);
    match put {
        Ok(_) => Ok(()),
        Err(fault) => Err(fault),
    }
}

/// A copy of some bytes of a file.
fn part_of(alloc: Global, file: &[u8], from: usize, len: usize) -> Result<Vec<u8>, RowFault> {
    match file.get(from..from.saturating_add(len)) {
        Some(part) => copy_of(alloc, part),
        None => Err(RowFault::BeyondEnd),
    }
}
