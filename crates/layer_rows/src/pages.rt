// How many pages runs take.
use doc_bits::{Bytes, Memory};
use fkp_pages::{ChpRuns, PapRuns, are_chp_runs, are_pap_runs, write_chpx_pages, write_papx_pages};
use prop_map::PropMap;
use std::alloc::Global;
use std::test::Fail;

/// The pages of runs of character properties.
fn character_pages(alloc: Global, runs: &ChpRuns) -> Result<Bytes, Memory> {
    if !are_chp_runs(runs) {
        return Ok(Bytes::new(alloc));
    }
    Ok(write_chpx_pages(alloc, runs)?.bytes)
}

/// The pages of runs of paragraph properties.
fn paragraph_pages(alloc: Global, runs: &PapRuns) -> Result<Bytes, Memory> {
    if !are_pap_runs(runs) {
        return Ok(Bytes::new(alloc));
    }
    Ok(write_papx_pages(alloc, runs)?.bytes)
}

/// The number of pages of characters, and of paragraphs, that so many runs of one unit without properties take.
fn page_counts(alloc: Global, count: u32) -> Result<(usize, usize), Memory> {
    let mut characters = ChpRuns::new(alloc);
    let mut paragraphs = PapRuns::new(alloc);
    for i in 0..count.min(1_000) {
        characters.add(1024 + 2 * i, 1026 + 2 * i, PropMap::new(alloc))?;
        paragraphs.add(1024 + 2 * i, 1026 + 2 * i, 0, PropMap::new(alloc))?;
    }
    let first = character_pages(alloc, &characters)?;
    let second = paragraph_pages(alloc, &paragraphs)?;
    Ok((first.as_slice().len() / 512, second.as_slice().len() / 512))
}

// A page has at most 101 runs of characters, and 29 of paragraphs.
#[test]
fn a_page_takes_the_most_runs(rt: HostRuntime) -> Result<(), Fail> {
    let rows = [
        (0, (0, 0)),
        (1, (1, 1)),
        (29, (1, 1)),
        (30, (1, 2)),
        (101, (1, 4)),
        (102, (2, 4)),
        (203, (3, 7)),
    ];
    for (count, pages) in rows {
        assert!(rt; page_counts(rt.alloc(), count)? == pages, "{count}");
    }
    Ok(())
}
