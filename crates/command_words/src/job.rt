//! The job that the words of a command line ask.

ghost use Rattle.std.specs.Prelude.{◌≡◌, map, string_bytes, None, Some, IfOk, IfErr, option_map};
ghost use Rattle.clap.specs.Walk.{first_of};
ghost use Rattle.clap.specs.Words.{rows_of, found_of};
ghost use Rattle.command_words.specs.Job.{job_of, command_named, command_job, app_of_command, job_in, number_or_one, seed_of, IsNoJob};
ghost use Rattle.command_words.specs.JobView.{job_view};
ghost use Rattle.command_words.specs.Words.{rows_of_words, AreNoRows};

use crate::words::{Argument, OneOfTwo, given_word, one_of_two, read_arguments, repeated_words};
use clap::ArgMatches;
use refusals::Refusal;
use std::alloc::Global;
use text_forms::number_of;

/// The names of three sheets and of a dump, and the name of a parameter.
#[derive(Clone, Copy, Debug)]
pub struct ValuesWords<'a> {
    pub parameters: &'a str,
    pub calibrations: &'a str,
    pub containers: &'a str,
    pub dump: &'a str,
    pub name: &'a str,
}

/// The names of three sheets, and of a script that creates tables, where one is given.
#[derive(Clone, Copy, Debug)]
pub struct CreateWords<'a> {
    pub parameters: &'a str,
    pub calibrations: &'a str,
    pub containers: &'a str,
    pub script: Option<&'a str>,
}

/// The names of dumps, and how they are loaded: by which links, with how many fillers, and with a sheet of asks and a
/// script that routes, where they are given.
#[derive(Debug, Drop)]
pub struct LoadWords<'a> {
    /// One or more.
    pub dumps: Vec<&'a str>,
    /// The number of the first dump's link. Each next dump comes by the link of the next number.
    pub link: u64,
    pub fillers: u64,
    pub asks: Option<&'a str>,
    pub route: Option<&'a str>,
}

/// A job, with the words that it was given.
#[derive(Debug, Drop)]
pub enum Job<'a> {
    /// The rows of a dump, printed in key order.
    Scan { dump: &'a str },
    /// The cells of a parameter over a dump, printed in key order.
    Values(ValuesWords<'a>),
    /// A new archive with the database of three sheets, and the tables of a script.
    Create(CreateWords<'a>),
    /// The packets of dumps, ingested into the archive.
    Load(LoadWords<'a>),
    /// The answers to a sheet of asks.
    Query { asks: &'a str },
    /// The answers to a script.
    Sql { script: &'a str },
    /// Late intervals filled, and how many rows the archive has.
    Recover,
    /// Whether what is stored of intervals is what their rows give.
    Verify,
    /// An archive of made packets, loaded, compared and summed up.
    Make { seed: u32 },
}

/// The command that is asked for.
#[derive(Clone, Copy, Debug, PartialEq, Eq)]
pub enum CommandName {
    Scan,
    Values,
    Create,
    Load,
    Query,
    Recover,
    Verify,
    Make,
}

/// The job of the words behind the program's name, or Usage where they are none.
pub fn job_of<'a>(alloc: Global, words: &'a [String]) -> Result<Job<'a>, Refusal>
    ensures job { IfOk result (λ job. job_of (map (λ w. string_bytes w) words.entry.now) ≡ Some (job_view job)) }
    ensures none { IfErr result (IsNoJob (job_of (map (λ w. string_bytes w) words.entry.now))) }
{
    let Some((word, rest)) = words.split_first() else {
        return Err(Refusal::Usage);
    };
    match command_named(word.as_str()) {
        Some(command) => command_job(alloc, command, rest),
        None => Err(Refusal::Usage),
    }
}

/// The command that a word asks for.
fn command_named(word: &str) -> Option<CommandName>
    ensures { result ≡ command_named word.now }
{
    if word == "scan" {
        return Some(CommandName::Scan);
    }
    if word == "values" {
        return Some(CommandName::Values);
    }
    if word == "create" {
        return Some(CommandName::Create);
    }
    if word == "load" {
        return Some(CommandName::Load);
    }
    if word == "query" {
        return Some(CommandName::Query);
    }
    if word == "recover" {
        return Some(CommandName::Recover);
    }
    if word == "verify" {
        return Some(CommandName::Verify);
    }
    if word == "make" {
        return Some(CommandName::Make);
    }
    None
}

/// The job of the words behind a command.
fn command_job<'a>(
    alloc: Global,
    command: CommandName,
    words: &'a [String],
) -> Result<Job<'a>, Refusal>
    ensures job { IfOk result (λ job. command_job command (map (λ w. string_bytes w) words.entry.now) ≡ Some
        (job_view job)) }
    ensures none { IfErr result (IsNoJob (command_job command (map (λ w. string_bytes w) words.entry.now))) }
{
    let found = found_words(alloc, command, words)?;
    job_in(alloc, command, &found)
}

/// What clap finds in the words behind a command.
fn found_words<'a>(
    alloc: Global,
    command: CommandName,
    words: &'a [String],
) -> Result<ArgMatches<'a>, Refusal>
    ensures found { IfOk result (λ found. rows_of_words (app_of_command command)
        (map (λ w. string_bytes w) words.entry.now) ≡ Some (rows_of (found_of found))) }
    ensures none { IfErr result
        (AreNoRows (rows_of_words (app_of_command command) (map (λ w. string_bytes w) words.entry.now))) }
{
    match command {
        CommandName::Scan => read_arguments(alloc, "scan", &[Argument::Word("dump")], words),
        CommandName::Values => {
            let arguments = [
                Argument::Word("parameters"),
                Argument::Word("calibrations"),
                Argument::Word("containers"),
                Argument::Word("dump"),
                Argument::Word("name"),
            ];
            read_arguments(alloc, "values", &arguments, words)
        }
        CommandName::Create => {
            let arguments = [
                Argument::Word("parameters"),
                Argument::Word("calibrations"),
                Argument::Word("containers"),
                Argument::Optional("script"),
            ];
            read_arguments(alloc, "create", &arguments, words)
        }
        CommandName::Load => found_of_load(alloc, words),
        CommandName::Query => {
            let script = Argument::Option {
                id: "sql",
                required: false,
            };
            let asks = Argument::Option {
                id: "ask",
                required: false,
            };
            read_arguments(alloc, "query", &[script, asks], words)
        }
        CommandName::Recover => read_arguments(alloc, "recover", &[], words),
        CommandName::Verify => read_arguments(alloc, "verify", &[], words),
        CommandName::Make => read_arguments(alloc, "make", &[Argument::Word("number")], words),
    }
}

/// What clap finds in the words behind `load`.
fn found_of_load<'a>(alloc: Global, words: &'a [String]) -> Result<ArgMatches<'a>, Refusal>
    ensures found { IfOk result (λ found. rows_of_words (app_of_command CommandName.Load)
        (map (λ w. string_bytes w) words.entry.now) ≡ Some (rows_of (found_of found))) }
    ensures none { IfErr result
        (AreNoRows (rows_of_words (app_of_command CommandName.Load) (map (λ w. string_bytes w) words.entry.now))) }
{
    let link = Argument::Option {
        id: "link",
        required: false,
    };
    let fillers = Argument::Option {
        id: "fillers",
        required: false,
    };
    let asks = Argument::Option {
        id: "ask",
        required: false,
    };
    let route = Argument::Option {
        id: "route",
        required: false,
    };
    let arguments = [Argument::Repeated("dump"), link, fillers, asks, route];
    read_arguments(alloc, "load", &arguments, words)
}

/// The job of a command, by the words that clap found.
fn job_in<'a>(
    alloc: Global,
    command: CommandName,
    found: &ArgMatches<'a>,
) -> Result<Job<'a>, Refusal>
    ensures job { IfOk result (λ job. job_in command (rows_of (found_of found.now)) ≡ Some (job_view job)) }
    ensures none { IfErr result (IsNoJob (job_in command (rows_of (found_of found.now)))) }
{
    match command {
        CommandName::Scan => or_usage(scan_in(found)),
        CommandName::Values => or_usage(values_in(found)),
        CommandName::Create => or_usage(create_in(found)),
        CommandName::Load => load_in(alloc, found),
        CommandName::Query => or_usage(query_in(found)),
        CommandName::Recover => Ok(Job::Recover),
        CommandName::Verify => Ok(Job::Verify),
        CommandName::Make => or_usage(make_in(found)),
    }
}

/// A job, or Usage where the words are none.
fn or_usage(job: Option<Job<'_>>) -> Result<Job<'_>, Refusal>
    ensures job { IfOk result (λ made. option_map (λ job. job_view job) job.entry ≡ Some (job_view made)) }
    ensures none { IfErr result (IsNoJob (option_map (λ job. job_view job) job.entry)) }
{
    match job {
        Some(job) => Ok(job),
        None => Err(Refusal::Usage),
    }
}

/// The job of `scan`.
fn scan_in<'a>(found: &ArgMatches<'a>) -> Option<Job<'a>>
    ensures { option_map (λ job. job_view job) result ≡ job_in CommandName.Scan (rows_of (found_of found.now)) }
{
    let dump = given_word(found, "dump")?;
    Some(Job::Scan { dump })
}

/// The job of `values`.
fn values_in<'a>(found: &ArgMatches<'a>) -> Option<Job<'a>>
    ensures { option_map (λ job. job_view job) result ≡ job_in CommandName.Values (rows_of (found_of found.now)) }
{
    let parameters = given_word(found, "parameters")?;
    let calibrations = given_word(found, "calibrations")?;
    let containers = given_word(found, "containers")?;
    let dump = given_word(found, "dump")?;
    let name = given_word(found, "name")?;
    Some(Job::Values(ValuesWords {
        parameters,
        calibrations,
        containers,
        dump,
        name,
    }))
}

/// The job of `create`.
fn create_in<'a>(found: &ArgMatches<'a>) -> Option<Job<'a>>
    ensures { option_map (λ job. job_view job) result ≡ job_in CommandName.Create (rows_of (found_of found.now)) }
{
    let parameters = given_word(found, "parameters")?;
    let calibrations = given_word(found, "calibrations")?;
    let containers = given_word(found, "containers")?;
    let script = given_word(found, "script");
    Some(Job::Create(CreateWords {
        parameters,
        calibrations,
        containers,
        script,
    }))
}

/// The job of `load`.
fn load_in<'a>(alloc: Global, found: &ArgMatches<'a>) -> Result<Job<'a>, Refusal>
    ensures job { IfOk result (λ job. job_in CommandName.Load (rows_of (found_of found.now)) ≡ Some (job_view job)) }
    ensures none { IfErr result (IsNoJob (job_in CommandName.Load (rows_of (found_of found.now)))) }
{
    let names = repeated_words(found, "dump")?;
    let link = given_number(found, "link")?;
    let fillers = given_number(found, "fillers")?;
    let asks = given_word(found, "ask");
    let route = given_word(found, "route");
    let dumps = Vec::from_slice(alloc, names)?;
    Ok(Job::Load(LoadWords {
        dumps,
        link,
        fillers,
        asks,
        route,
    }))
}

/// The job of `query`, which takes a script or a sheet of asks.
fn query_in<'a>(found: &ArgMatches<'a>) -> Option<Job<'a>>
    ensures { option_map (λ job. job_view job) result ≡ job_in CommandName.Query (rows_of (found_of found.now)) }
{
    let script = given_word(found, "sql");
    let asks = given_word(found, "ask");
    match one_of_two(script, asks) {
        Ok(OneOfTwo::First(script)) => Some(Job::Sql { script }),
        Ok(OneOfTwo::Second(asks)) => Some(Job::Query { asks }),
        Err(_) => None,
    }
}

/// The job of `make`.
fn make_in<'a>(found: &ArgMatches<'a>) -> Option<Job<'a>>
    ensures { option_map (λ job. job_view job) result ≡ job_in CommandName.Make (rows_of (found_of found.now)) }
{
    let word = given_word(found, "number")?;
    let seed = seed_of(word)?;
    Some(Job::Make { seed })
}

/// The number of 32 bits that a word spells.
fn seed_of(word: &str) -> Option<u32>
    ensures { result ≡ seed_of word.now }
{
    let number = number_of(19, word.as_bytes())?;
    if number <= 4_294_967_295 {
        Some(number as u32)
    } else {
        None
    }
}

/// The number, from 1 on, that was given for an id, or 1 where none was.
fn given_number(found: &ArgMatches<'_>, id: &str) -> Result<u64, Refusal>
    ensures number { IfOk result (λ number.
        number_or_one (first_of id.now (rows_of (found_of found.now))) ≡ Some number) }
    ensures none { IfErr result (λ refusal. (refusal ≡ Refusal.Usage) ×
        (number_or_one (first_of id.now (rows_of (found_of found.now))) ≡ None)) }
{
    match number_or_one(given_word(found, id)) {
        Some(number) => Ok(number),
        None => Err(Refusal::Usage),
    }
}

/// The number, from 1 on, that a word spells, or 1 where there is none.
fn number_or_one(word: Option<&str>) -> Option<u64>
    ensures { result ≡ number_or_one (option_map (λ word. word.now) word.entry) }
{
    let Some(word) = word else {
        return Some(1);
    };
    let number = number_of(19, word.as_bytes())?;
    if number >= 1 { Some(number) } else { None }
}
