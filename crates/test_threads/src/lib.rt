//! Trials of what threads share: an index with its writer, readers and converter, blends, and
//! watches. Each is compared with rows that were worked by hand and with the plain scan, on one
//! thread and on several.
#![tactic(auto)]

#[cfg(test)]
mod tests;
