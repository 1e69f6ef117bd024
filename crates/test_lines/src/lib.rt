//! Trials of the crates that read and write lines: terms, texts, queries, words of a command,
//! sources and sinks, made input and images. Each is compared with rows that were worked by hand.
#![tactic(auto)]

#[cfg(test)]
mod tests;
