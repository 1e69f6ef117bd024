//! Trials of a feed that threads share: its turns, its readers that sleep and wake, its followers,
//! its converters. Each is compared with rows that were worked by hand and with the plain scan, on
//! one thread and on several.
#![tactic(auto)]

#[cfg(test)]
mod tests;
