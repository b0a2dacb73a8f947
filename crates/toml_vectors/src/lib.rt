//! Tests of what no text shows: calls of the library, what a caller's own types read and write or the errors that they
//! answer, the calls that the documentation shows, and what `toml_streams` makes of a reader or a writer that fails. What
//! texts give stands in the data of `toml_cases`.
#![tactic(auto)]

#[cfg(test)]
mod ends;
#[cfg(test)]
mod examples;
#[cfg(test)]
mod faults;
#[cfg(test)]
mod held;
#[cfg(test)]
mod kinds;
#[cfg(test)]
mod messages;
#[cfg(test)]
mod origins;
#[cfg(test)]
mod parts;
#[cfg(test)]
mod rows;
#[cfg(test)]
mod tables;
#[cfg(test)]
mod tokens;
#[cfg(test)]
mod writing;
#[cfg(test)]
mod written;
