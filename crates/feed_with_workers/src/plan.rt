use run_store::Plan;

/// How a run goes over the lines of a feed, which costs nothing to copy.
#[derive(Clone, Copy, Debug)]
pub struct FeedPlan<'a> {
    /// How lines are read, how what is printed is written, and the setting of each generation.
    pub lines: Plan<'a>,
    /// How many generations are kept, 2 to 64.
    pub keep: u32,
}
