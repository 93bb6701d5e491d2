//! Tests with contracts of their own, which are proved from the contracts of `search` and `published` alone: what a caller can promise.
//! All other tests that call the libraries are in `tests/calls`, and are not proved.
#![tactic(auto)]

#[cfg(test)]
mod beside;
#[cfg(test)]
mod fixtures;
#[cfg(test)]
mod searches;
