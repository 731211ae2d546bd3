//! Tests that use several crates: answers from an index, and worked runs over archives in memory. The crate has only
//! tests.
#![tactic(auto)]

#[cfg(test)]
mod answered;
#[cfg(test)]
mod answers;
#[cfg(test)]
mod booleans;
#[cfg(test)]
mod cursors;
#[cfg(test)]
mod date_rows;
#[cfg(test)]
mod devices;
#[cfg(test)]
mod early_end;
#[cfg(test)]
mod failing_calls;
#[cfg(test)]
mod failing_devices;
#[cfg(test)]
mod failing_files;
#[cfg(test)]
mod failing_folder;
#[cfg(test)]
mod fault_texts;
#[cfg(test)]
mod fixture;
#[cfg(test)]
mod form_rows;
#[cfg(test)]
mod index_rows;
#[cfg(test)]
mod layer_faults;
#[cfg(test)]
mod pattern_rows;
#[cfg(test)]
mod program_runs;
#[cfg(test)]
mod refusal_rows;
#[cfg(test)]
mod rows;
#[cfg(test)]
mod sent_pieces;
#[cfg(test)]
mod stored_indexes;
#[cfg(test)]
mod sweeps;
#[cfg(test)]
mod text_rows;
#[cfg(test)]
mod threads;
#[cfg(test)]
mod verified;
