//! What holds of the text of lines, over the definitions alone.
ghost use Rattle.run_store.specs.Laws.{SomeText, OneText, OrderText};

/// The rules of a store without watches leave no input out: its lines have a text, whichever documents the queries may see. The call
/// does nothing.
pub fn some_text()
    ensures { SomeText }
{}

/// Where each query sees exactly the documents before its line, they give an input one text and no other. The call does nothing.
pub fn one_text()
    ensures { OneText }
{}

/// This text is one of those that the rules allow where queries may see more. The call does nothing.
pub fn order_text()
    ensures { OrderText }
{}
