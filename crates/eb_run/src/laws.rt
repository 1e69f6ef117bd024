ghost use Rattle.eb_run.specs.FeedLaws.{SomeFeedText, OneFeedText, OrderFeedText, NeverFull};
ghost use Rattle.eb_run.specs.Laws.{SomeText, OneText, OrderText};

/// The rules leave no input out: each has a text, in each mode. The call does nothing.
pub fn some_text()
    ensures { SomeText }
{}

/// Without workers, and without `--overlap` over one index, the rules give an input one text and no
/// other. So the input's bytes decide what a run prints up to the end of its input. The call does
/// nothing.
pub fn one_text()
    ensures { OneText }
{}

/// The text of lines that are processed one after the other is one of those that the rules allow
/// with `--overlap`: they allow each query to see just the documents before it. The call does
/// nothing.
pub fn order_text()
    ensures { OrderText }
{}

/// The rules of feeds leave no input out: each has a text. The call does nothing.
pub fn feed_some_text()
    ensures { SomeFeedText }
{}

/// Without workers they give an input one text and no other. So the input's bytes decide what a
/// feed prints up to the end of its input. The call does nothing.
pub fn feed_one_text()
    ensures { OneFeedText }
{}

/// This text is one of those that the rules allow with workers: they allow each query to see just
/// the documents before it. The call does nothing.
pub fn feed_order_text()
    ensures { OrderFeedText }
{}

/// A feed refuses no line as full, in whichever way its lines are processed. The call does nothing.
pub fn feed_never_full()
    ensures { NeverFull }
{}
