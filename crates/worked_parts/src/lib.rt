//! Tests of the parts of a run. They cover what is read (archives, headers, words, dates, the texts of messages,
//! queries, command lines and rcfiles), files by their names, and index files with the jobs that make them. The crate
//! has only tests.
#![tactic(auto)]

#[cfg(test)]
mod boolean_texts;
#[cfg(test)]
mod builders;
#[cfg(test)]
mod command_lines;
#[cfg(test)]
mod compared;
#[cfg(test)]
mod counted;
#[cfg(test)]
mod cut_archives;
#[cfg(test)]
mod date_texts;
#[cfg(test)]
mod day_ranges;
#[cfg(test)]
mod folders;
#[cfg(test)]
mod header_dates;
#[cfg(test)]
mod header_texts;
#[cfg(test)]
mod index_decoder;
#[cfg(test)]
mod index_files;
#[cfg(test)]
mod index_jobs;
#[cfg(test)]
mod job_sweeps;
#[cfg(test)]
mod message_texts;
#[cfg(test)]
mod option_faults;
#[cfg(test)]
mod patterns;
#[cfg(test)]
mod queries;
#[cfg(test)]
mod query_lines;
#[cfg(test)]
mod rcfiles;
#[cfg(test)]
mod reading;
#[cfg(test)]
mod rows;
#[cfg(test)]
mod source_lines;
#[cfg(test)]
mod sweeps;
#[cfg(test)]
mod text_words;
