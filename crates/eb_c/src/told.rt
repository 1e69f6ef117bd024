/// What a call reports besides the numbers of watches.
#[repr(C)]
#[derive(Clone, Copy, Debug, PartialEq, Eq)]
pub struct Told {
    /// How many watches match, also where there is no room for the numbers of all of them. 0 where
    /// the call is refused.
    pub count: u64,
    /// How many numbers were written: of all that match, or as many as there is room for. 0 where
    /// the call is refused.
    pub written: u64,
}
