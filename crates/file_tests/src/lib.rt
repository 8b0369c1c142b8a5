//! Tests of stores in files: what SQL makes of them and finds in them, and commands over them.
#![tactic(auto)]

#[cfg(test)]
mod batches;
#[cfg(test)]
mod commands;
#[cfg(test)]
mod contents;
#[cfg(test)]
mod exchanges;
#[cfg(test)]
mod reasons;
#[cfg(test)]
mod sources;
#[cfg(test)]
mod sql;
#[cfg(test)]
mod tables;
