//! What is seen of a value, and of an object.

// What is seen of a value: the number, where it is whole and below 2^64, and the string.
#[derive(Clone, Copy)]
pub(crate) struct Seen<'a> {
    pub number: Option<u64>,
    pub string: Option<&'a str>,
}

// Of a value that is neither.
pub(crate) const NEITHER: Seen<'static> = Seen {
    number: None,
    string: None,
};

// What is seen of an object: the id that its last member with the id's name is, and the string that
// its last member with the text's name is.
#[derive(Clone, Copy)]
pub(crate) struct Members<'a> {
    pub id: Option<u64>,
    pub text: Option<&'a str>,
}
