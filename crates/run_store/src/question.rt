ghost use Rattle.std.specs.Prelude.{◌≡◌, true, IfOk};
ghost use Rattle.run_store.specs.Questions.{IsQuestion};
ghost use Rattle.eb_query.specs.Head.{begins_query};
ghost use Rattle.eb_fields.specs.Dialect.{dialect_of};

use eb_base::{NoMemory, Query};
use eb_fields::Dialect;
use eb_lines::{Refusal, query_refusal};
use eb_query::{Ask, read_ask};
use std::alloc::Global;

/// What a query line asks by this dialect, and of which query, or why the line is refused.
#[inline(always)]
pub fn read_question(
    alloc: Global,
    dialect: &Dialect<'_>,
    text: &str,
) -> Result<Result<(Ask, Query), Refusal>, NoMemory>
    requires { begins_query (dialect_of dialect.now) text.now ≡ true }
    ensures { IfOk result (λ read. IsQuestion (dialect_of dialect.now) text.now read) }
{
    match read_ask(alloc, dialect, text) {
        Ok(asked) => Ok(Ok(asked)),
        Err(fault) => Ok(Err(query_refusal(fault)?)),
    }
}
