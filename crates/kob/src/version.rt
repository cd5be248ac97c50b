//! What `--version` prints.

/// The version, the commit, and whether the program is proved. `rt` builds a program only once it is
/// proved. `tools/release` writes the commit in place of the dashes; `tools/quick`, which proves
/// nothing, builds with a text of its own.
pub static VERSION: &str = "kob 0.3.0, commit ------------, proved\n";
