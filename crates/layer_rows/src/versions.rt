// The FIB of other programs. What is expected is worked out by hand from the numbers that [MS-DOC] gives for them.
use doc_bits::{Memory, put16, put32};
use fib_versions::{AnyFib, part_name};
use std::alloc::Global;
use std::test::Fail;

/// What a `WordDocument` of zeros has besides.
#[derive(Clone, Copy)]
pub(crate) struct Numbers {
    pub(crate) len: usize,
    pub(crate) ident: u16,
    pub(crate) n_fib: u16,
    pub(crate) flags: u16,
    pub(crate) pairs: u16,
    pub(crate) csw_new: u16,
    /// ccpText and ccpHdrTxbx.
    pub(crate) ccps: (u32, u32),
}

/// Word 97.
pub(crate) const EARLY: Numbers = Numbers {
    len: 900,
    ident: 0xA5EC,
    n_fib: 0x00C1,
    flags: 0x0200,
    pairs: 93,
    csw_new: 0,
    ccps: (1, 0),
};

/// Puts a number of 16 bits, where it is within.
fn put_short(wd: &mut [u8], at: usize, value: u16) {
    if at < 1_000_000 && at + 2 <= wd.len() {
        put16(wd, at, value);
    }
}

/// Puts a number of 32 bits, where it is within.
fn put_long(wd: &mut [u8], at: usize, value: u32) {
    if at < 1_000_000 && at + 4 <= wd.len() {
        put32(wd, at, value);
    }
}

/// So many zeros.
fn zeros(alloc: Global, len: usize) -> Result<Vec<u8>, Memory> {
    let mut bytes = Vec::new(alloc);
    for _ in 0..len {
        bytes.push(0)?;
    }
    Ok(bytes)
}

/// Puts the numbers at their places.
fn put_numbers(wd: &mut [u8], numbers: Numbers) {
    put_short(wd, 0, numbers.ident);
    put_short(wd, 2, numbers.n_fib);
    put_short(wd, 10, numbers.flags);
    put_short(wd, 32, 14);
    put_short(wd, 62, 22);
    put_long(wd, 76, numbers.ccps.0);
    put_long(wd, 104, numbers.ccps.1);
    put_short(wd, 152, numbers.pairs);
    put_short(wd, 154 + 8 * numbers.pairs as usize, numbers.csw_new);
}

/// The number of pairs of an accepted FIB behind a 0, or the rule and the place by which it is refused.
fn answer(wd: &[u8]) -> (u8, u32) {
    match AnyFib::read(wd) {
        Ok(fib) => (0, fib.pair_count() as u32),
        Err(fault) => (fault.rule, fault.offset),
    }
}

/// A stream with these numbers.
pub(crate) fn stream_of(alloc: Global, numbers: Numbers) -> Result<Vec<u8>, Memory> {
    let mut wd = zeros(alloc, numbers.len)?;
    put_numbers(&mut wd, numbers);
    Ok(wd)
}

/// The answer for a stream with these numbers.
fn answer_of(alloc: Global, numbers: Numbers) -> Result<(u8, u32), Memory> {
    let wd = stream_of(alloc, numbers)?;
    Ok(answer(&wd))
}

/// The length, nFib, cbRgFcLcb and cswNew of Word 97, 2000, 2002, 2003 and 2007, and of programs that write others.
const VERSIONS: [(usize, u16, u16, u16); 8] = [
    (900, 0x00C1, 93, 0),
    (1_024, 0x00C1, 108, 2),
    (1_248, 0x00C1, 136, 2),
    (1_472, 0x00C1, 164, 2),
    (1_630, 0x00C1, 183, 5),
    (900, 0x00C0, 93, 0),
    (900, 0x0101, 93, 0),
    (1_018, 0x00C3, 107, 0),
];

/// Whether each is read, with its pairs.
fn are_read(alloc: Global, versions: &[(usize, u16, u16, u16)]) -> Result<bool, Memory> {
    for (len, n_fib, pairs, csw_new) in versions {
        let numbers = Numbers {
            len: *len,
            n_fib: *n_fib,
            pairs: *pairs,
            csw_new: *csw_new,
            ..EARLY
        };
        if answer_of(alloc, numbers)? != (0, *pairs as u32) {
            return Ok(false);
        }
    }
    Ok(true)
}

#[test]
fn each_version_is_read(rt: HostRuntime) -> Result<(), Fail> {
    assert!(rt; are_read(rt.alloc(), &VERSIONS)?);
    Ok(())
}

/// What a FIB is, its numbers, and the answer.
#[derive(Clone, Copy)]
struct Row(&'static str, Numbers, (u8, u32));

const ROWS: [Row; 11] = [
    Row("too short", Numbers { len: 899, ..EARLY }, (16, 899)),
    Row("cut", CUT, (16, 1_623)),
    Row("Word 95", WORD_95, (17, 0)),
    Row("a test version", TEST_VERSION, (18, 2)),
    Row("encrypted", ENCRYPTED, (19, 10)),
    Row("obfuscated", OBFUSCATED, (19, 10)),
    Row("a glossary", GLOSSARY, (20, 10)),
    Row("92 pairs", Numbers { pairs: 92, ..EARLY }, (21, 152)),
    Row("no text", NO_TEXT, (23, 76)),
    Row("long boxes", LONG_BOXES, (23, 76)),
    Row("boxes", BOXES, (0, 93)),
];

/// One that ends before what is behind cswNew.
const CUT: Numbers = Numbers {
    len: 1_623,
    pairs: 183,
    csw_new: 5,
    ..EARLY
};

const WORD_95: Numbers = Numbers {
    ident: 0xA5DC,
    n_fib: 0x0068,
    pairs: 6_708,
    ..EARLY
};

const TEST_VERSION: Numbers = Numbers {
    n_fib: 0x00BF,
    pairs: 6_708,
    ..EARLY
};

const GLOSSARY: Numbers = Numbers {
    flags: 0x0002,
    ..EARLY
};

/// One whose pairs nobody can read, since it is encrypted.
const ENCRYPTED: Numbers = Numbers {
    flags: 0x0100,
    pairs: 0xFFFF,
    ..EARLY
};

const OBFUSCATED: Numbers = Numbers {
    flags: 0x8000,
    pairs: 0xFFFF,
    ..EARLY
};

const NO_TEXT: Numbers = Numbers {
    ccps: (0, 0),
    ..EARLY
};

const LONG_BOXES: Numbers = Numbers {
    ccps: (1, 500_000),
    ..EARLY
};

const BOXES: Numbers = Numbers {
    ccps: (1, 499_999),
    ..EARLY
};

/// The first of these whose answer is another.
fn first_wrong(alloc: Global, rows: &[Row]) -> Result<Option<&'static str>, Memory> {
    for row in rows {
        if answer_of(alloc, row.1)? != row.2 {
            return Ok(Some(row.0));
        }
    }
    Ok(None)
}

#[test]
fn others_are_refused_by_what_they_are(rt: HostRuntime) -> Result<(), Fail> {
    let wrong = first_wrong(rt.alloc(), &ROWS)?;
    assert!(rt; wrong == None, "{wrong:?}");
    Ok(())
}

/// Some pairs, and what the standard calls the parts that they name.
const NAMES: [(usize, &str); 7] = [
    (0, "StshfOrig"),
    (33, "Clx"),
    (50, "DggInfo"),
    (92, "SttbfUssr"),
    (93, "PlcfTch"),
    (182, "ColorSchemeMapping"),
    (183, "Unknown"),
];

/// Whether each has its name.
fn are_named(names: &[(usize, &str)]) -> bool {
    for (pair, name) in names {
        if part_name(*pair) != *name {
            return false;
        }
    }
    true
}

#[test]
fn parts_have_the_names_of_the_standard(rt: HostRuntime) -> Result<(), Fail> {
    assert!(rt; are_named(&NAMES));
    Ok(())
}
