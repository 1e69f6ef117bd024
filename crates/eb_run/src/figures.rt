ghost use Rattle.std.specs.Prelude.{◌≡◌, ◌++◌, OnOk};
ghost use Rattle.std.specs.String.{string_bytes};
ghost use Rattle.eb_run.specs.Bench.{bench_line, counts_text, sums_text};

use eb_base::NoMemory;
use std::fmt::Write;

// The line of figures of a made input, after the text.
pub(crate) fn put_figures(
    text: &mut String,
    documents: u64,
    queries: u64,
    ids: u64,
    sum: u128,
) -> Result<(), NoMemory>
    ensures { OnOk result (string_bytes text.new ≡ string_bytes text.old ++ bench_line documents queries ids sum) }
{
    put_counts(text, documents, queries)?;
    put_sums(text, ids, sum)?;
    Ok(())
}

// The counts of documents and queries.
fn put_counts(text: &mut String, documents: u64, queries: u64) -> Result<(), NoMemory>
    ensures { OnOk result (string_bytes text.new ≡ string_bytes text.old ++ counts_text documents queries) }
{
    text.push_str("bench: documents ")?;
    write!(text, "{documents}, queries {queries}, ")?;
    Ok(())
}

// The number of the ids and their sum.
fn put_sums(text: &mut String, ids: u64, sum: u128) -> Result<(), NoMemory>
    ensures { OnOk result (string_bytes text.new ≡ string_bytes text.old ++ sums_text ids sum) }
{
    writeln!(text, "ids {ids}, sum {sum}")?;
    Ok(())
}
