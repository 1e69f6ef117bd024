//! Trials of the program's runs that no text shows: what threads do at once, which of them wakes,
//! how much may wait, and that each answer is out in time.
#![tactic(auto)]

#[cfg(test)]
mod tests;
