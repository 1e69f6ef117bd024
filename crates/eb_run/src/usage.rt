/// How to call the program, except for feeds. `--help` lists the options beyond these.
pub const USAGE: &[u8] =
    b"earlybird: usage: run [--overlap | --workers N | --parts N | --watch] [--stats] [--segments N] [--docs N] [--terms N] | \
      bench START DOCS | save [--segments N] [--docs N] [--terms N] | load [--stats]\n";

/// How to call it for a feed.
pub const FEED_USAGE: &[u8] =
    b"earlybird: usage: feed [--overlap | --workers N | --watch] [--keep N] [--fields LIST] [--stats] [--json] [--segments N] \
      [--docs N] [--terms N]\n";
