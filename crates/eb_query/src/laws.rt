ghost use Rattle.eb_query.specs.Laws.{SomeReading, OneReading, SomeWatchReading, OneWatchReading, ReadsBack, InPlain, FieldsApart, NewestAlone};

/// The rules of reading leave no line out, whatever fields are read: each line has an outcome,
/// which asks something or is a refusal. The call does nothing.
pub fn some_reading()
    ensures { SomeReading }
{}

/// The law of reading: the rules give a line at most one outcome. So they decide what
/// [`read_query`] answers: a query that they give isn't refused, and each refusal comes exactly
/// where they say. The call does nothing.
///
/// [`read_query`]: crate::read_query
pub fn one_reading()
    ensures { OneReading }
{}

/// The rules of watch lines leave no line out: each sets or removes a watch or is a refusal. The
/// call does nothing.
pub fn some_watch_reading()
    ensures { SomeWatchReading }
{}

/// The law of reading for watch lines: the rules give a line at most one outcome, and so decide
/// what [`read_watch`] answers. The call does nothing.
///
/// [`read_watch`]: crate::read_watch
pub fn one_watch_reading()
    ensures { OneWatchReading }
{}

/// The law of writing: the line that [`write_query`] gives for `k` and a well-formed query reads as
/// `k` and that query, where no term of a word, phrase or window has a quotation mark, the text of
/// each has exactly its terms as its tokens, and the line doesn't nest deeper than 16. Of a bound
/// the law requires only that 64 bits hold its number. The call does nothing.
///
/// [`write_query`]: crate::write_query
pub fn reads_back()
    ensures { ReadsBack }
{}

/// A law: without fields a lexeme is read as by the rules without fields. So [`read_query`] and
/// [`read_watch`] read what they read before there were any. The call does nothing.
///
/// [`read_query`]: crate::read_query
/// [`read_watch`]: crate::read_watch
pub fn in_plain()
    ensures { InPlain }
{}

/// A law: whatever fields are read, the terms of each phrase and each window that a line asks for
/// are the tokens of a text. No field's term is such a token
/// ([`is_no_token`](eb_fields::is_no_token)), so a field's term is only ever asked for as a word.
/// The call does nothing.
pub fn fields_apart()
    ensures { FieldsApart }
{}

/// A law: where the dialect has no counts, a query line asks for the newest matches alone. The call
/// does nothing.
pub fn newest_alone()
    ensures { NewestAlone }
{}
