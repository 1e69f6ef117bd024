ghost use Rattle.std.specs.Prelude.{◌≡◌, [], ◌∷◌, IsTrue, ◌↔◌, is_some, IfSome, MatchOption, option_map};
ghost use Rattle.eb_fields.specs.Fields.{names, names_in, is_field_list, begun_name};

use crate::names::{are_names, is_begun_by};

/// The fields whose values are found, by their names in order. The list borrows from the text that
/// it was read from, and costs nothing to copy.
///
/// The empty list is [`Fields::none`]; any other comes from [`Fields::read`]. With no field, a
/// document or a query is read as without fields.
#[derive(Clone, Copy, Debug)]
pub struct Fields<'a> {
    words: Option<&'a str>,
}

impl<'a> Fields<'a> {
    /// No field.
    pub fn none() -> Fields<'a>
        ensures { names result ≡ [] }
    {
        Fields { words: None }
    }

    /// The fields of the words `NAME,NAME..`: one to [`MAX_NAMES`](crate::MAX_NAMES) names with
    /// commas between, each of one to [`MAX_NAME_BYTES`](crate::MAX_NAME_BYTES) of the letters `a`
    /// to `z`, the digits and `_`, none of them `since`, and none twice. `None` for any other
    /// words.
    pub fn read(words: &'a str) -> Option<Fields<'a>>
        ensures some { is_some result ≡ is_field_list words.now }
        ensures names { IfSome result (λ fields. names fields ≡ names_in words.now) }
    {
        let fields = Fields { words: Some(words) };
        if are_names(fields) {
            Some(fields)
        } else {
            None
        }
    }

    /// Whether there is no field.
    pub fn is_none(self) -> bool
        ensures { IsTrue result ↔ (names self.entry ≡ []) }
    {
        self.words.is_none()
    }

    /// The first name, and the fields after it.
    pub fn split_first(self) -> Option<(&'a str, Fields<'a>)>
        ensures { MatchOption result (names self.entry ≡ []) (λ parts. names self.entry ≡ parts.0.now ∷ names parts.1) }
    {
        let Some(words) = self.words else {
            return None;
        };
        match words.split_once(',') {
            Some((name, rest)) => Some((name, Fields { words: Some(rest) })),
            None => Some((words, Fields { words: None })),
        }
    }

    /// The first name that a text begins with, a colon right after it: the field that the text
    /// names.
    pub fn begun_by(self, text: &str) -> Option<&'a str>
        ensures { option_map (λ name. name.now) result ≡ begun_name (names self.entry) text.now }
    {
        match self.split_first() {
            Some((name, rest)) => {
                if is_begun_by(text, name) {
                    Some(name)
                } else {
                    rest.begun_by(text)
                }
            }
            None => None,
        }
    }
}
