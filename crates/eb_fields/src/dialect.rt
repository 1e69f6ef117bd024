ghost use Rattle.std.specs.Prelude.{◌≡◌};
ghost use Rattle.eb_fields.specs.Dialect.{dialect_of, plain, uncounted};

use crate::fields::Fields;
use eb_text::Cut;

/// How lines are read: each option of their reading is a field here. Whatever reads lines gets the
/// whole dialect, which costs nothing to copy.
#[derive(Clone, Copy, Debug)]
pub struct Dialect<'a> {
    /// The members of documents that queries can ask for too.
    pub fields: Fields<'a>,
    /// How the texts of documents and of queries are cut into tokens.
    pub cut: Cut,
    /// The name of the member that is a document's id: a whole number, or a string of digits as
    /// [`read_id`](crate::read_id) takes it. `None`: the member `id`, which is a whole number.
    pub id: Option<&'a str>,
    /// The name of the member that is a document's text. `None`: the member `text`.
    pub text: Option<&'a str>,
    /// Whether a line may ask for a count: one that begins with `#`.
    pub counts: bool,
}

impl<'a> Dialect<'a> {
    /// No field, each word a token, the members `id` and `text`, and no counts.
    pub fn plain() -> Dialect<'a>
        ensures { dialect_of result ≡ plain }
    {
        Dialect {
            fields: Fields::none(),
            cut: Cut::Words,
            id: None,
            text: None,
            counts: false,
        }
    }

    /// This dialect, by which no line asks for a count.
    pub fn uncounted(self) -> Dialect<'a>
        ensures { dialect_of result ≡ uncounted (dialect_of self.entry) }
    {
        Dialect {
            counts: false,
            ..self
        }
    }
}
