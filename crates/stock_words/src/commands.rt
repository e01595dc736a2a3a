//! The commands `batch`, `import`, `audit` and `load`, as the kit's `clap` reads them.
ghost use Rattle.std.specs.Prelude.{◌≡◌, false, IfOk, IfErr, MatchOption, map, string_bytes};
ghost use Rattle.clap.specs.declared.builder.command.Command.TheViews.{out-Command};
ghost use Rattle.clap.specs.Words.{app_of, found_of, kind_of, rows_of, subcommand_of, subcommand_rows_of};
ghost use Rattle.stock_words.specs.Commands.{AsksFor, AsksForNothing, IsAuditFor, IsBatchFor, IsFileForNothing, IsImportFor, IsLoadFor, IsLoadForNothing, file_command, load_command, program};
ghost use Rattle.stock_words.specs.Words.{SpellsNoServe};

use crate::words::{Asked, load_count};
use clap::error::ErrorKind;
use clap::{Arg, ArgMatches, Command, Error};
use std::alloc::{AllocError, Global};

/// What stands in the words, which are a batch, an import, an audit or a load.
/// `Error`: memory was wanting.
pub(crate) fn matches_of<'a>(alloc: Global, words: &'a [String]) -> Result<ArgMatches<'a>, Error>
    requires { SpellsNoServe (map string_bytes words.now) }
    ensures found { IfOk result (λ matches.
        subcommand_rows_of matches ≡ subcommand_of program (map string_bytes words.now)) }
    ensures memory { IfErr result (λ error. kind_of error ≡ ErrorKind.OutOfMemory) }
{
    program(alloc)?.try_get_matches_from(words)
}

/// The program, with these commands and their arguments. The words begin after its name.
fn program<'a>(alloc: Global) -> Result<Command<'a>, AllocError>
    ensures { IfOk result (λ command. app_of command ≡ program) }
{
    let batch = file_command(alloc, "batch")?;
    let import = file_command(alloc, "import")?;
    let audit = file_command(alloc, "audit")?;
    let load = load_command(alloc)?;
    let named = Command::new(alloc, "stockd").no_binary_name(true);
    let answering = named.subcommand(batch)?;
    let importing = answering.subcommand(import)?;
    let auditing = importing.subcommand(audit)?;
    auditing.subcommand(load)
}

/// A command with `--file`.
fn file_command<'a>(alloc: Global, name: &'a str) -> Result<Command<'a>, AllocError>
    ensures app { IfOk result (λ command. app_of command ≡ file_command name.now) }
    ensures local { IfOk result (λ command. (out-Command command).has_globals ≡ false) }
{
    let file = Arg::new(alloc, "file").long("file");
    Command::new(alloc, name).arg(file)
}

fn load_command<'a>(alloc: Global) -> Result<Command<'a>, AllocError>
    ensures app { IfOk result (λ command. app_of command ≡ load_command) }
    ensures local { IfOk result (λ command. (out-Command command).has_globals ≡ false) }
{
    let count = Arg::new(alloc, "count");
    Command::new(alloc, "load").arg(count)
}

/// What the command that was found asks for, or None where it is none of the program's.
pub(crate) fn asked_in<'a>(matches: &ArgMatches<'a>) -> Option<Asked<'a>>
    ensures { MatchOption result (AsksForNothing (subcommand_rows_of matches.now))
        (AsksFor (subcommand_rows_of matches.now)) }
{
    match matches.subcommand()? {
        ("batch", batch) => Some(batch_asked(batch)),
        ("import", import) => import_asked(import),
        ("audit", audit) => audit_asked(audit),
        ("load", load) => load_asked(load),
        _ => None,
    }
}

/// What `batch` asks for: over a file where one is named.
fn batch_asked<'a>(batch: &ArgMatches<'a>) -> Asked<'a>
    ensures { IsBatchFor (rows_of (found_of batch.now)) result }
{
    match batch.get_str("file") {
        Some(path) => Asked::BatchOver(path),
        None => Asked::Batch,
    }
}

/// What `import` asks for, if a file is named.
fn import_asked<'a>(import: &ArgMatches<'a>) -> Option<Asked<'a>>
    ensures { MatchOption result (IsFileForNothing (rows_of (found_of import.now)))
        (IsImportFor (rows_of (found_of import.now))) }
{
    let path = import.get_str("file")?;
    Some(Asked::ImportInto(path))
}

/// What `audit` asks for, if a file is named.
fn audit_asked<'a>(audit: &ArgMatches<'a>) -> Option<Asked<'a>>
    ensures { MatchOption result (IsFileForNothing (rows_of (found_of audit.now)))
        (IsAuditFor (rows_of (found_of audit.now))) }
{
    let path = audit.get_str("file")?;
    Some(Asked::AuditOf(path))
}

/// What `load` asks for, if it is a number of vouchers.
fn load_asked<'a>(load: &ArgMatches<'a>) -> Option<Asked<'a>>
    ensures { MatchOption result (IsLoadForNothing (rows_of (found_of load.now)))
        (IsLoadFor (rows_of (found_of load.now))) }
{
    let count = load_count(load.get_str("count")?)?;
    Some(Asked::Load(count))
}
