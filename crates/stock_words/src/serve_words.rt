//! The words of `serve`: its options, each at most once, in any order.
ghost use Rattle.std.specs.Prelude.{◌≡◌, ◌≢◌, ◌≤◌, ◌∷◌, ℕ, List, None, MatchOption, codes, map, string_bytes};
ghost use Rattle.std.specs.Option.{option_map};
ghost use Rattle.stock_words.specs.NumberWords.{IsNumber, IsNoNumber};
ghost use Rattle.stock_words.specs.ServeWords.{SpellsServe, SpellsNoService, BeginsWithSetting, BeginsWithNone, IsNotFirst, SpellsGiven, SpellsNotGiven, Means, MeansNothing, TellsNumber, TellsConnections, given_of, none_given, option_text, service_of, value_of, with_value};

use crate::number_words::number_in;
use crate::words::is_path;
use stock_nums::limits::MAX_DESK;

/// The greatest number of a port.
pub(crate) const MAX_PORT: u32 = 65_535;

/// The most connections of a service.
pub(crate) const MAX_CONNECTIONS: u32 = 4_294_967_295;

/// The most seconds that a peer may be silent, where that is limited: a day.
pub(crate) const MAX_IDLE: u32 = 86_400;

/// What the words of a service ask for.
#[derive(Clone, Copy, Debug)]
pub struct ServeWords<'a> {
    /// The path of the ledger's file.
    pub path: &'a str,
    /// The port, from 1 to 65,535.
    pub port: u16,
    /// How many desks, from 1 to 16.
    pub desks: u32,
    /// How many connections, no fewer than desks. As many where that isn't said.
    pub connections: u32,
    /// After how many seconds a silent peer is ended, from 1 to 86,400, where that is said.
    pub idle: Option<u32>,
}

/// The options of `serve`.
#[derive(Clone, Copy, Debug, PartialEq, Eq)]
pub enum Name {
    File,
    Port,
    Desks,
    Connections,
    Idle,
}

/// The values of the options that were given.
#[derive(Clone, Copy)]
pub struct Options<'a> {
    file: Option<&'a str>,
    port: Option<&'a str>,
    desks: Option<&'a str>,
    connections: Option<&'a str>,
    idle: Option<&'a str>,
}

// An option with its value, and the words behind it.
#[derive(Clone, Copy)]
struct Next<'a> {
    name: Name,
    value: &'a str,
    behind: &'a [String],
}

/// What the words ask for, if they are `serve` and its options. It takes no memory.
pub(crate) fn serve_words(words: &[String]) -> Option<ServeWords<'_>>
    ensures { MatchOption result (SpellsNoService (map string_bytes words.now))
        (λ asked. SpellsServe (map string_bytes words.now) (service_of asked)) }
{
    let Some((command, options)) = words.split_first() else {
        return None;
    };
    match command.as_str() {
        "serve" => asked_after(options),
        _ => None,
    }
}

// What the words after `serve` ask for, if they are its options.
fn asked_after(words: &[String]) -> Option<ServeWords<'_>>
    ensures { MatchOption result (SpellsNoService (codes "serve" ∷ map string_bytes words.now))
        (λ asked. SpellsServe (codes "serve" ∷ map string_bytes words.now) (service_of asked)) }
{
    let Some(options) = options_in(words, Options::none()) else {
        return None;
    };
    asked_by(options)
}

// The options with those that the words are, if they are such, and none is given twice. So no more are looked at than there are names.
fn options_in<'a>(words: &'a [String], options: Options<'a>) -> Option<Options<'a>>
    ensures { MatchOption result (SpellsNotGiven (map string_bytes words.now) (given_of options.entry))
        (λ all. SpellsGiven (map string_bytes words.now) (given_of options.entry) (given_of all)) }
{
    if words.is_empty() {
        return Some(options);
    }
    let Some(next) = next_option(words) else {
        return None;
    };
    let Some(more) = options.with(next.name, next.value) else {
        return None;
    };
    options_in(next.behind, more)
}

// The option that the words begin with, if they do with one.
fn next_option(words: &[String]) -> Option<Next<'_>>
    ensures { MatchOption result (BeginsWithNone (map string_bytes words.now))
        (λ next. BeginsWithSetting (map string_bytes words.now) (next.name, next.value.now) (map string_bytes next.behind.now)) }
{
    let Some((word, behind)) = words.split_first() else {
        return None;
    };
    any_option(word.as_str(), behind)
}

// The option that these words begin with, if they do with one.
fn any_option<'a>(word: &'a str, behind: &'a [String]) -> Option<Next<'a>>
    ensures { MatchOption result (BeginsWithNone (word.now ∷ map string_bytes behind.now))
        (λ next. BeginsWithSetting (word.now ∷ map string_bytes behind.now) (next.name, next.value.now) (map string_bytes next.behind.now)) }
{
    if let Some(next) = option_of(Name::File, word, behind) {
        return Some(next);
    }
    if let Some(next) = option_of(Name::Port, word, behind) {
        return Some(next);
    }
    if let Some(next) = option_of(Name::Desks, word, behind) {
        return Some(next);
    }
    if let Some(next) = option_of(Name::Connections, word, behind) {
        return Some(next);
    }
    if let Some(next) = option_of(Name::Idle, word, behind) {
        return Some(next);
    }
    None
}

// This option, if the words begin with it.
fn option_of<'a>(name: Name, word: &'a str, behind: &'a [String]) -> Option<Next<'a>>
    ensures { MatchOption result (IsNotFirst (word.now ∷ map string_bytes behind.now) name)
        (λ next. (next.name ≡ name)
        × BeginsWithSetting (word.now ∷ map string_bytes behind.now) (name, next.value.now) (map string_bytes next.behind.now)) }
{
    if word == option_text(name) {
        return value_word(name, behind);
    }
    let value = word.strip_prefix(option_text(name))?.strip_prefix("=")?;
    if value.is_empty() {
        return None;
    }
    Some(Next {
        name,
        value,
        behind,
    })
}

// The option whose value is the next word, if that may be one.
fn value_word<'a>(name: Name, words: &'a [String]) -> Option<Next<'a>>
    ensures { MatchOption result (IsNotFirst (option_text name ∷ map string_bytes words.now) name)
        (λ next. (next.name ≡ name)
        × BeginsWithSetting (option_text name ∷ map string_bytes words.now) (name, next.value.now) (map string_bytes next.behind.now)) }
{
    let (value, behind) = words.split_first()?;
    let value = value.as_str();
    if !is_path(value) {
        return None;
    }
    Some(Next {
        name,
        value,
        behind,
    })
}

fn option_text(name: Name) -> &'static str
    ensures { result.now ≡ option_text name }
{
    match name {
        Name::File => "--file",
        Name::Port => "--port",
        Name::Desks => "--desks",
        Name::Connections => "--connections",
        Name::Idle => "--idle",
    }
}

impl<'a> Options<'a> {
    // None of them.
    fn none() -> Options<'a>
        ensures { given_of result ≡ none_given }
    {
        Options {
            file: None,
            port: None,
            desks: None,
            connections: None,
            idle: None,
        }
    }

    // The value of this option, if it was given.
    fn value_of(self, name: Name) -> Option<&'a str>
        ensures { option_map (λ value. value.now) result ≡ value_of name (given_of self.entry) }
    {
        match name {
            Name::File => self.file,
            Name::Port => self.port,
            Name::Desks => self.desks,
            Name::Connections => self.connections,
            Name::Idle => self.idle,
        }
    }

    // The same with this option, if it was not given yet.
    fn with(self, name: Name, value: &'a str) -> Option<Options<'a>>
        ensures { MatchOption result (value_of name (given_of self.entry) ≢ None)
            (λ more. (value_of name (given_of self.entry) ≡ None) × (given_of more ≡ with_value (name, value.now) (given_of self.entry))) }
    {
        if self.value_of(name).is_some() {
            return None;
        }
        Some(self.setting(name, value))
    }

    // The same with this option, whether it was given or not.
    fn setting(self, name: Name, value: &'a str) -> Options<'a>
        ensures { given_of result ≡ with_value (name, value.now) (given_of self.entry) }
    {
        let value = Some(value);
        match name {
            Name::File => Options {
                file: value,
                ..self
            },
            Name::Port => Options {
                port: value,
                ..self
            },
            Name::Desks => Options {
                desks: value,
                ..self
            },
            Name::Connections => Options {
                connections: value,
                ..self
            },
            Name::Idle => Options {
                idle: value,
                ..self
            },
        }
    }
}

// What the options ask for.
fn asked_by(options: Options<'_>) -> Option<ServeWords<'_>>
    ensures { MatchOption result (MeansNothing (given_of options.entry)) (λ asked. Means (given_of options.entry) (service_of asked)) }
{
    let Some(path) = options.file else {
        return None;
    };
    let Some(port) = number_of(options.port, MAX_PORT) else {
        return None;
    };
    let Some(desks) = number_of(options.desks, MAX_DESK as u32) else {
        return None;
    };
    let Some(connections) = connections_of(options.connections, desks) else {
        return None;
    };
    let asked = ServeWords {
        path,
        port: port as u16,
        desks,
        connections,
        idle: None,
    };
    match options.idle {
        None => Some(asked),
        Some(word) => match number_in(word, MAX_IDLE) {
            Some(seconds) => Some(ServeWords {
                idle: Some(seconds),
                ..asked
            }),
            None => None,
        },
    }
}

// The number that the value tells, if there is one and it does.
fn number_of(value: Option<&str>, most: u32) -> Option<u32>
    ensures { MatchOption result ((n : ℕ) → TellsNumber most (option_map (λ word. word.now) value.entry) n → ⊥)
        (TellsNumber most (option_map (λ word. word.now) value.entry)) }
{
    match value {
        Some(word) => number_in(word, most),
        None => None,
    }
}

// How many connections the value tells, for so many desks: as many where there is none.
fn connections_of(value: Option<&str>, desks: u32) -> Option<u32>
    ensures { MatchOption result ((n : ℕ) → TellsConnections (option_map (λ word. word.now) value.entry) desks n → ⊥)
        (TellsConnections (option_map (λ word. word.now) value.entry) desks) }
{
    let Some(word) = value else {
        return Some(desks);
    };
    match number_in(word, MAX_CONNECTIONS) {
        Some(connections) if desks <= connections => Some(connections),
        _ => None,
    }
}
