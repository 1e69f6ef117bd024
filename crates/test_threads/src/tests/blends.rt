//! Blends, compared with rows that were worked by hand and with the plain scan of one history, and
//! while threads add and convert.
mod beside;
mod counting;
mod made;
mod rows;
mod table;
mod together;
