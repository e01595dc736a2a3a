//! What the words of the program ask for.
ghost use Rattle.std.specs.Prelude.{◌≡◌, ◌↔◌, ℕ, List, ◌∷◌, IsTrue, IfOk, IfErr, MatchOption, map, codes, string_bytes};
ghost use Rattle.stock_words.specs.Words.{Spells, SpellsNoServe, IsFaultOf, IsPath, IsFileOption, IsCount, IsNoCount};

use crate::commands::{asked_in, matches_of};
use crate::number_words::number_in;
use crate::serve_words::{ServeWords, serve_words};
use std::alloc::Global;

/// The most vouchers of a load. The least is 1.
pub const MAX_LOAD: u32 = 40_000;

/// What the words ask for.
#[derive(Clone, Copy, Debug)]
pub enum Asked<'a> {
    /// `batch`: over a new ledger that is kept nowhere.
    Batch,
    /// `batch --file P`: over the ledger in the file at this path.
    BatchOver(&'a str),
    /// `import --file P`: a sheet of vouchers, into the ledger in the file at this path.
    ImportInto(&'a str),
    /// `audit --file P`: a check of the ledger in the file at this path.
    AuditOf(&'a str),
    /// `load N`: a script of so many vouchers, over a new ledger that is kept nowhere.
    Load(u32),
    /// `serve`: desks over the ledger in a file.
    Serve(ServeWords<'a>),
}

/// Why nothing can be done for the words.
#[derive(Clone, Copy, Debug, PartialEq, Eq)]
pub enum WordsFault {
    /// They are no form that the program knows.
    Unknown,
    /// Memory was wanting to read them. They are a batch, an import, an audit or a load, since to tell that takes none.
    NoMemory,
}

/// What the words ask for.
///
/// # Errors
///
/// `Unknown` exactly where the words are no form that the program knows, which takes no memory to tell, and `NoMemory`.
pub fn asked_by(alloc: Global, words: &[String]) -> Result<Asked<'_>, WordsFault>
    ensures asked { IfOk result (Spells (map string_bytes words.now)) }
    ensures fault { IfErr result (IsFaultOf (map string_bytes words.now)) }
{
    if let Some(asked) = serve_words(words) {
        return Ok(Asked::Serve(asked));
    }
    if !is_no_serve(words) {
        return Err(WordsFault::Unknown);
    }
    let Ok(matches) = matches_of(alloc, words) else {
        return Err(WordsFault::NoMemory);
    };
    match asked_in(&matches) {
        Some(asked) => Ok(asked),
        None => Err(WordsFault::Unknown),
    }
}

/// Whether the words are a batch, an import, an audit or a load. The parser alone would take more: `--`, and a path of no bytes.
fn is_no_serve(words: &[String]) -> bool
    ensures { IsTrue result ↔ SpellsNoServe (map string_bytes words.now) }
{
    let Some((command, options)) = words.split_first() else {
        return false;
    };
    is_no_serve_after(command.as_str(), options)
}

/// Whether the command and the words after it are a batch, an import, an audit or a load.
fn is_no_serve_after(command: &str, options: &[String]) -> bool
    ensures { IsTrue result ↔ SpellsNoServe (command.now ∷ map string_bytes options.now) }
{
    match command {
        "batch" => are_batch_options(options),
        "import" => is_import_file(options),
        "audit" => is_audit_file(options),
        "load" => is_load_count(options),
        _ => false,
    }
}

/// Whether the words after `batch` are none, or `--file` and a path, as two words or one.
fn are_batch_options(options: &[String]) -> bool
    ensures { IsTrue result ↔ SpellsNoServe (codes "batch" ∷ map string_bytes options.now) }
{
    match options {
        [] => true,
        [option] => is_file_option(option.as_str()),
        [option, path] => is_file(option.as_str()) && is_path(path.as_str()),
        _ => false,
    }
}

/// Whether the words after `import` are `--file` and a path, as two words or one.
fn is_import_file(options: &[String]) -> bool
    ensures { IsTrue result ↔ SpellsNoServe (codes "import" ∷ map string_bytes options.now) }
{
    match options {
        [option] => is_file_option(option.as_str()),
        [option, path] => is_file(option.as_str()) && is_path(path.as_str()),
        _ => false,
    }
}

/// Whether the words after `audit` are `--file` and a path, as two words or one.
fn is_audit_file(options: &[String]) -> bool
    ensures { IsTrue result ↔ SpellsNoServe (codes "audit" ∷ map string_bytes options.now) }
{
    match options {
        [option] => is_file_option(option.as_str()),
        [option, path] => is_file(option.as_str()) && is_path(path.as_str()),
        _ => false,
    }
}

fn is_file(word: &str) -> bool
    ensures { IsTrue result ↔ (word.now ≡ codes "--file") }
{
    word == "--file"
}

/// A path has a byte, and where it has more than one it is no option.
pub(crate) fn is_path(word: &str) -> bool
    ensures { IsTrue result ↔ IsPath word.now }
{
    match word.as_bytes() {
        [] => false,
        [_] => true,
        [first, ..] => *first != b'-',
    }
}

/// Whether the word is `--file=` followed by a path.
fn is_file_option(word: &str) -> bool
    ensures { IsTrue result ↔ (path : List ℕ) × IsFileOption word.now path }
{
    word.strip_prefix("--file=")
        .is_some_and(|path| !path.is_empty())
}

/// Whether the words after `load` are one, a number of vouchers.
fn is_load_count(rest: &[String]) -> bool
    ensures { IsTrue result ↔ SpellsNoServe (codes "load" ∷ map string_bytes rest.now) }
{
    match rest {
        [word] => load_count(word.as_str()).is_some(),
        _ => false,
    }
}

/// The number of vouchers that the word tells, if it tells one.
pub(crate) fn load_count(word: &str) -> Option<u32>
    ensures { MatchOption result (IsNoCount word.now) (IsCount word.now) }
{
    number_in(word, MAX_LOAD)
}
