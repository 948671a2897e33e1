//! What no file reaches, layer by layer: tests of the calls that write and change.
#![tactic(auto)]

#[cfg(test)]
mod bookmark_lists;
#[cfg(test)]
mod containers;
#[cfg(test)]
mod documents;
#[cfg(test)]
mod fields_by_bytes;
#[cfg(test)]
mod guards;
#[cfg(test)]
mod lent;
#[cfg(test)]
mod links;
#[cfg(test)]
mod losses;
#[cfg(test)]
mod maps;
#[cfg(test)]
mod markup;
#[cfg(test)]
mod open_fields;
#[cfg(test)]
mod out_blocks;
#[cfg(test)]
mod outside;
#[cfg(test)]
mod pages;
#[cfg(test)]
mod pictures;
#[cfg(test)]
mod piece_blocks;
#[cfg(test)]
mod puts;
#[cfg(test)]
mod ready_blocks;
#[cfg(test)]
mod refusing;
#[cfg(test)]
mod saves;
#[cfg(test)]
mod sprms;
#[cfg(test)]
mod tally;
#[cfg(test)]
mod versions;
