ghost use Rattle.std.specs.Prelude.{◌≡◌};
ghost use Rattle.eb_run.specs.Command.{form_of};

use eb_lines::Form;
use eb_options::Items;

// In which form the output is written: what the items `--json` and `--stats` say.
pub(crate) fn read_form(items: &Items) -> Form
    ensures { result ≡ form_of items.now }
{
    Form {
        json: items.has("json"),
        stats: items.has("stats"),
    }
}
