//! Tests of the public calls of the libraries that the program does not make: with ample memory each call that allocates gives its
//! answer, and none runs out of memory. They stand here and not in the libraries, each of which would be proved once more for a
//! test of its own. The texts of `cube_tests` show what the program calls.
#![tactic(auto)]

#[cfg(test)]
mod allocations;
#[cfg(test)]
mod covers;
#[cfg(test)]
mod fixtures;
#[cfg(test)]
mod ranges;
#[cfg(test)]
mod replies;
#[cfg(test)]
mod terms;
