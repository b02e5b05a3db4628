//! Tests of public calls that read and write records, names and values, or keep sets of entry numbers, on what no command of the program
//! shows: sources and sinks that fail in the middle of a call, texts that no word of a command can have, and sets in each form. They need no
//! configuration, and so they are proved while others are.
#![tactic(auto)]

#[cfg(test)]
mod adapters;
#[cfg(test)]
mod deep_filters;
#[cfg(test)]
mod names;
#[cfg(test)]
mod readers;
#[cfg(test)]
mod sets;
#[cfg(test)]
mod texts;
#[cfg(test)]
mod written_lines;
