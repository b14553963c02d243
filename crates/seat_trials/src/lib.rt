//! Seats of one log in threads. It is no part of the program: it holds a test alone, which is cheaper in a crate of its own,
//! since a crate with tests is proved twice.
#![tactic(auto)]

#[cfg(test)]
mod tests;
