//! Tests of public calls under a configuration, on what no command of the program shows: sources and sinks that fail in the middle of a
//! call, how many keys a change edits, and calls that no command makes. They stand in a crate of their own, since a crate with tests is proved
//! once more for them.
#![tactic(auto)]

#[cfg(test)]
mod directories;
#[cfg(test)]
mod entry_values;
#[cfg(test)]
mod failing_devices;
#[cfg(test)]
mod indexes;
#[cfg(test)]
mod integrity;
#[cfg(test)]
mod lone_index;
#[cfg(test)]
mod places;
#[cfg(test)]
mod runs;
#[cfg(test)]
mod searches;
#[cfg(test)]
mod server_schemas;
#[cfg(test)]
mod texts;
