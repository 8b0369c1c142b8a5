//! Tests of the program as a library: inputs worked out by hand, what they write and how they end.
#![tactic(auto)]

#[cfg(test)]
mod asked;
#[cfg(test)]
mod calls;
#[cfg(test)]
mod cubes;
#[cfg(test)]
mod distributions;
#[cfg(test)]
mod drills;
#[cfg(test)]
mod ends;
#[cfg(test)]
mod examples;
#[cfg(test)]
mod fact_files;
pub mod fact_tables;
#[cfg(test)]
mod faults;
#[cfg(test)]
mod feeds;
#[cfg(test)]
mod fractions;
#[cfg(test)]
mod growths;
#[cfg(test)]
mod large_cubes;
#[cfg(test)]
mod limits;
#[cfg(test)]
mod lines;
#[cfg(test)]
mod rebuilt;
#[cfg(test)]
mod refused_stores;
#[cfg(test)]
mod replies;
#[cfg(test)]
mod rounds;
#[cfg(test)]
mod runs;
#[cfg(test)]
mod schemas;
#[cfg(test)]
mod steps;
#[cfg(test)]
mod store_faults;
#[cfg(test)]
mod stored;
#[cfg(test)]
mod stores;
#[cfg(test)]
mod streams;
#[cfg(test)]
mod sum_ends;
#[cfg(test)]
mod tables;
#[cfg(test)]
mod weights;
#[cfg(test)]
mod worlds;
