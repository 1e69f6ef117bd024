//! The tests, by what they run.
mod ahead;
mod beside;
mod holding;
mod letting_go;
mod made;
mod rows;
mod serving;
mod turns;
