use crate::changes::change;
use crate::lent::{added, copy_of, given, joined};
use crate::row_fault::RowFault;
use crate::streams::{bytes_of, keeps_text, many_streams, one_stream, with_streams};
use crate::words::Words;
use cfb_streams::Streams;
use doc_outer::{MemShelf, ReadFail, Shelf, read_whole};
use std::alloc::Global;

/// A file of a row.
#[derive(Drop)]
struct File {
    name: String,
    bytes: Vec<u8>,
}

/// The files of a row, by their names. They stay from run to run.
#[derive(Drop)]
pub(crate) struct Files {
    alloc: Global,
    files: Vec<File>,
}

impl Files {
    /// No name holds bytes.
    pub(crate) fn new(alloc: Global) -> Files {
        Files {
            alloc,
            files: Vec::new(alloc),
        }
    }

    /// Makes or changes a file.
    pub(crate) fn make(&mut self, first: &str, words: &mut Words<'_, '_>) -> Result<(), RowFault> {
        let name = words.word()?;
        match first {
            "text" => self.hold_text(name, words),
            "zeros" => self.hold_zeros(name, words),
            "take" => self.take(name, words),
            "give" | "fill" => self.give(name, first, words),
            "add" | "put" | "numbers" | "copy" | "length" => self.change(name, first, words),
            _ => Err(RowFault::NoCommand),
        }
    }

    /// Lets a name hold the bytes of the text that is left.
    fn hold_text(&mut self, name: &str, words: &mut Words<'_, '_>) -> Result<(), RowFault> {
        let text = words.spelled()?;
        self.hold(name, text.into_bytes())
    }

    /// Lets a name hold zeros.
    fn hold_zeros(&mut self, name: &str, words: &mut Words<'_, '_>) -> Result<(), RowFault> {
        let bytes = zeros(self.alloc, words)?;
        self.hold(name, bytes)
    }

    /// Where the file of a name is, or how many files there are.
    fn place_of(&self, name: &str) -> usize {
        for (place, file) in self.files.iter().enumerate() {
            if file.name.as_str() == name {
                return place;
            }
        }
        self.files.len()
    }

    /// Lets a name hold these bytes.
    pub(crate) fn hold(&mut self, name: &str, bytes: Vec<u8>) -> Result<(), RowFault> {
        let place = self.place_of(name);
        match self.files.get_mut(place) {
            Some(file) => {
                file.bytes = bytes;
                Ok(())
            }
            None => self.add(name, bytes),
        }
    }

    /// Lets a name that holds nothing yet hold these bytes.
    fn add(&mut self, name: &str, bytes: Vec<u8>) -> Result<(), RowFault> {
        match String::from_str(self.alloc, name) {
            Ok(name) => added(self.files.push(File { name, bytes })),
            Err(_) => Err(RowFault::Memory),
        }
    }

    /// Lets a name hold a copy of these bytes.
    pub(crate) fn hold_copy(&mut self, name: &str, bytes: &[u8]) -> Result<(), RowFault> {
        let copy = copy_of(self.alloc, bytes)?;
        self.hold(name, copy)
    }

    /// The bytes that a name holds.
    pub(crate) fn bytes(&self, name: &str) -> Result<&[u8], RowFault> {
        match self.files.get(self.place_of(name)) {
            Some(file) => Ok(&file.bytes),
            None => Err(RowFault::NoFile),
        }
    }

    /// The bytes that the name of the next word holds.
    pub(crate) fn named(&self, words: &mut Words<'_, '_>) -> Result<&[u8], RowFault> {
        let name = words.word()?;
        self.bytes(name)
    }

    /// Whether two names hold the same bytes, all of them or those of a range.
    pub(crate) fn same(&self, words: &mut Words<'_, '_>) -> Result<String, RowFault> {
        let one = self.named(words)?;
        let other = self.named(words)?;
        let answer = are_same(one, other, words)?;
        told(self.alloc, words, answer)
    }

    /// Whether the bytes of the `WordDocument` of a file are in that of another one, but for its FIB.
    pub(crate) fn kept(&self, words: &mut Words<'_, '_>) -> Result<String, RowFault> {
        let old = self.named(words)?;
        let new = self.named(words)?;
        let answer = keeps_text(self.alloc, old, new)?;
        told(self.alloc, words, answer)
    }

    /// Lets a name hold the bytes of a stream of a file.
    fn take(&mut self, name: &str, words: &mut Words<'_, '_>) -> Result<(), RowFault> {
        let bytes = self.taken(words)?;
        self.hold(name, bytes)
    }

    /// The bytes of a stream of a file.
    fn taken(&self, words: &mut Words<'_, '_>) -> Result<Vec<u8>, RowFault> {
        let file = self.named(words)?;
        let stream = words.word()?;
        bytes_of(self.alloc, file, stream)
    }

    /// Makes the container of a file anew, with the bytes of a name as one of its streams, or as many streams more.
    fn give(&mut self, file: &str, first: &str, words: &mut Words<'_, '_>) -> Result<(), RowFault> {
        let streams = self.streams(first, words)?;
        let made = self.made_with(file, &streams);
        drop(streams);
        let bytes = made?;
        self.hold(file, bytes)
    }

    /// The streams that are given.
    fn streams(&self, first: &str, words: &mut Words<'_, '_>) -> Result<Streams, RowFault> {
        if first == "give" {
            let stream = words.word()?;
            let bytes = self.named(words)?;
            one_stream(self.alloc, stream, bytes)
        } else {
            let count = words.number()?;
            let bytes = self.named(words)?;
            many_streams(self.alloc, count, bytes)
        }
    }

    /// The container of a file with these streams.
    fn made_with(&self, file: &str, given: &Streams) -> Result<Vec<u8>, RowFault> {
        let bytes = self.bytes(file)?;
        with_streams(self.alloc, bytes, given)
    }

    /// Changes the bytes of a name.
    fn change(
        &mut self,
        name: &str,
        first: &str,
        words: &mut Words<'_, '_>,
    ) -> Result<(), RowFault> {
        let mut bytes = self.copied(name)?;
        let changed = self.changed(&mut bytes, first, words);
        let bytes = given(bytes, changed)?;
        self.hold(name, bytes)
    }

    /// A copy of the bytes of a name.
    fn copied(&self, name: &str) -> Result<Vec<u8>, RowFault> {
        let bytes = self.bytes(name)?;
        copy_of(self.alloc, bytes)
    }

    /// Changes bytes.
    fn changed(
        &self,
        bytes: &mut Vec<u8>,
        first: &str,
        words: &mut Words<'_, '_>,
    ) -> Result<(), RowFault> {
        if first == "add" {
            let count = words.number()?;
            let more = self.named(words)?;
            add_times(bytes, count, more)
        } else {
            change(self.alloc, first, bytes, words)
        }
    }

    /// Lets a name hold the bytes of a file of data.
    pub(crate) fn read<D: Shelf>(
        &mut self,
        data: &mut D,
        words: &mut Words<'_, '_>,
    ) -> Result<(), RowFault> {
        let name = words.word()?;
        let of = words.word()?;
        let bytes = data_of(self.alloc, data, of)?;
        self.hold(name, bytes)
    }

    /// A store that holds these files.
    pub(crate) fn shelf(&self) -> Result<MemShelf, RowFault> {
        let mut shelf = MemShelf::new(self.alloc);
        let put = self.put_in(&mut shelf);
        given(shelf, put)
    }

    /// Gives these files to a store.
    fn put_in(&self, shelf: &mut MemShelf) -> Result<(), RowFault> {
        for file in &self.files {
            shelf.give(file.name.as_str(), &file.bytes)?;
        }
        Ok(())
    }

    /// Lets each name hold what the store holds under it, and one name more. So many calls of the store fail yet.
    pub(crate) fn keep<D: Shelf>(
        &mut self,
        shelf: &mut D,
        name: &str,
        failing: usize,
    ) -> Result<(), RowFault> {
        for file in &mut self.files {
            renew(self.alloc, shelf, file, failing)?;
        }
        match held(self.alloc, shelf, name, failing)? {
            Some(bytes) => self.hold(name, bytes),
            None => Ok(()),
        }
    }
}

/// So many zeros as the next word says.
fn zeros(alloc: Global, words: &mut Words<'_, '_>) -> Result<Vec<u8>, RowFault> {
    let len = words.number()?;
    Ok(vec![in alloc; 0; len as usize]?)
}

/// Puts bytes behind others, so many times.
fn add_times(bytes: &mut Vec<u8>, count: u64, more: &[u8]) -> Result<(), RowFault> {
    for _ in 0..count {
        bytes.extend_from_slice(more)?;
    }
    Ok(())
}

/// Whether bytes are the same, all of them or those of the range that is left.
fn are_same(one: &[u8], other: &[u8], words: &mut Words<'_, '_>) -> Result<bool, RowFault> {
    if !words.has_more() {
        return Ok(one == other);
    }
    let [from, to] = words.numbers::<2>()?;
    let one = part_of(one, from as usize, to as usize)?;
    let other = part_of(other, from as usize, to as usize)?;
    Ok(one == other)
}

/// The bytes of a range.
fn part_of(bytes: &[u8], from: usize, to: usize) -> Result<&[u8], RowFault> {
    match bytes.get(from..to) {
        Some(part) => Ok(part),
        None => Err(RowFault::BeyondEnd),
    }
}

/// The bytes of a file of data.
fn data_of<D: Shelf>(alloc: Global, data: &mut D, name: &str) -> Result<Vec<u8>, RowFault> {
    match read_whole(alloc, data, name) {
        Ok(bytes) => copy_of(alloc, bytes.as_slice()),
        Err(ReadFail::Memory) => Err(RowFault::Memory),
        Err(_) => Err(RowFault::NoData),
    }
}

/// The line, and whether what it asks is so.
fn told(alloc: Global, words: &Words<'_, '_>, answer: bool) -> Result<String, RowFault> {
    let word = if answer { "yes" } else { "no" };
    joined(alloc, &[words.line, ": ", word, "\n"])
}

/// Lets a name hold what the store holds under it.
fn renew<D: Shelf>(
    alloc: Global,
    shelf: &mut D,
    file: &mut File,
    failing: usize,
) -> Result<(), RowFault> {
    if let Some(bytes) = held(alloc, shelf, file.name.as_str(), failing)? {
        file.bytes = bytes;
    }
    Ok(())
}

/// What the store holds under a name, where it is there and may be read whole. A call that fails is made once more.
fn held<D: Shelf>(
    alloc: Global,
    shelf: &mut D,
    name: &str,
    failing: usize,
) -> Result<Option<Vec<u8>>, RowFault> {
    for _ in 0..=failing {
        match read_whole(alloc, shelf, name) {
            Ok(bytes) => return some_copy(alloc, bytes.as_slice()),
            Err(ReadFail::Failed) => {}
            Err(ReadFail::Memory) => return Err(RowFault::Memory),
            Err(_) => return Ok(None),
        }
    }
    Ok(None)
}

/// A copy of bytes that are there.
fn some_copy(alloc: Global, bytes: &[u8]) -> Result<Option<Vec<u8>>, RowFault> {
    let copy = copy_of(alloc, bytes)?;
    Ok(Some(copy))
}
