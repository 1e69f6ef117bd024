//! Watches, compared with rows that were worked by hand.
mod keys;
mod made;
mod rows;
