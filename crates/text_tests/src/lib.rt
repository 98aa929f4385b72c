//! Tests of reading and writing sets and traces. They stand apart, so that each of those crates is proved once.
#![tactic(auto)]

#[cfg(test)]
mod canonical_texts;
#[cfg(test)]
mod document_laws;
#[cfg(test)]
mod documents;
#[cfg(test)]
mod lines;
#[cfg(test)]
mod traces;
