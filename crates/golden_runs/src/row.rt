//! A row: a run, or several with the same result, and what is wanted of them.

use std::alloc::Global;

// A call of the source and one of the sink that fail, from 1, or 0 for none; and how many bytes of
// the output are out then.
#[derive(Clone, Copy)]
pub(crate) struct Fault {
    pub(crate) read: u64,
    pub(crate) write: u64,
    pub(crate) leaves: u64,
}

// What the gate observes: how many documents were added, and how many searches loaded a count.
#[derive(Clone, Copy)]
pub(crate) struct Told {
    pub(crate) added: u64,
    pub(crate) loaded: u64,
}

#[derive(Drop)]
pub(crate) struct Row {
    pub(crate) name: String,
    // The words of each command line, and how many bytes a call the source gives and the sink takes
    // at most, of each run.
    pub(crate) lines: Vec<Vec<String>>,
    pub(crate) cuts: Vec<u64>,
    pub(crate) input: Vec<u8>,
    // What is printed: of each part the texts that are allowed.
    pub(crate) output: Vec<Vec<Vec<u8>>>,
    pub(crate) status: u64,
    // What is on the error output, of which no byte is taken where it is deaf.
    pub(crate) said: Vec<u8>,
    pub(crate) is_deaf: bool,
    // Whether no call of the source is made.
    pub(crate) is_unread: bool,
    // How many bytes the sink takes.
    pub(crate) room: u64,
    // The points of the gate, as many as are known: how many there are of each kind, or all in
    // order.
    pub(crate) told: Option<Told>,
    pub(crate) order: Option<u64>,
    // Further runs, in which a call fails.
    pub(crate) faults: Vec<Fault>,
}

impl Row {
    pub(crate) fn new(alloc: Global, name: String) -> Row {
        Row {
            name,
            lines: Vec::new(alloc),
            cuts: Vec::new(alloc),
            input: Vec::new(alloc),
            output: Vec::new(alloc),
            status: 0,
            said: Vec::new(alloc),
            is_deaf: false,
            is_unread: false,
            room: 1_048_576,
            told: None,
            order: None,
            faults: Vec::new(alloc),
        }
    }
}
