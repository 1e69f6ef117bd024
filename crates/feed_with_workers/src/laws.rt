ghost use Rattle.feed_with_workers.specs.Laws.{NoneIsFull};

/// A law of a feed with workers: whatever the lines, none is refused as full, since a feed begins a
/// generation where the newest has no room. Does nothing.
pub fn none_is_full()
    ensures { NoneIsFull }
{}
