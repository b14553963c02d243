//! Tries calls of the crates that read and write formats, `exact_json`, `pbf_wire`, `pbf_reader`, `pbf_writer` and `plain_map`, that no
//! run of the program shows.
//!
//! It is no part of the program: tests stand here since a crate with tests is proved twice. What maps and models are, and their first
//! faults, are rows of examples/tables.
#![tactic(auto)]

#[cfg(test)]
mod exact_json_calls;
#[cfg(test)]
mod pbf_reader_calls;
#[cfg(test)]
mod pbf_wire_calls;
#[cfg(test)]
mod pbf_writer_calls;
#[cfg(test)]
mod plain_map_calls;
