ghost use Rattle.eb_fields.specs.Laws.{IsNoToken, NamesApart};

/// A law: no token of a text is a field's term. So a word of a query finds no field, a field's term
/// finds no word of a text, and no phrase or window has a field's term. The call does nothing.
pub fn is_no_token()
    ensures { IsNoToken }
{}

/// A law: two terms of names without a colon are the same only where the names are and the values
/// are, both folded. The call does nothing.
pub fn names_apart()
    ensures { NamesApart }
{}
