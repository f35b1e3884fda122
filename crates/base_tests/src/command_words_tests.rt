//! The words of a load and the limits that they may pass, one of two options, a word that may come, and a seed; which
//! words the other commands take is tried by `run`.

use crate::ends::none_other;
use clap::ArgMatches;
use command_words::job::{Job, job_of};
use command_words::words::{Argument, given_word, is_given, read_arguments};
use refusals::{Refusal, Which};
use std::alloc::{AllocError, Global};
use std::test::Fail;

/// The words of a line, between its blanks; an empty line has none.
fn words_of(alloc: Global, line: &str) -> Result<Vec<String>, AllocError> {
    let mut words = Vec::new(alloc);
    if line.is_empty() {
        return Ok(words);
    }
    for word in line.split(' ') {
        words.push(String::from_str(alloc, word)?)?;
    }
    Ok(words)
}

/// What is found behind a command that takes a sheet, a script or none, and an option without a value.
fn script_of<'a>(alloc: Global, words: &'a [String]) -> Result<ArgMatches<'a>, Refusal> {
    let arguments = [
        Argument::Word("sheet"),
        Argument::Optional("script"),
        Argument::Flag("dry"),
    ];
    read_arguments(alloc, "create", &arguments, words)
}

/// What is read of a line.
enum Read {
    /// The dumps of a load in their order, the number of the first one's link, and how many fillers there are.
    Load(&'static [&'static str], u64, u64),
    NoLoad,
    /// The file of a query by a script, or by a sheet of asks.
    Sql(&'static str),
    Ask(&'static str),
    NoQuery,
    /// The script, where there is one, and whether the option was given.
    Script(Option<&'static str>, bool),
    NoScript,
    Seed(u32),
    NoSeed,
}

fn is_load(alloc: Global, words: &[String], want: &Read) -> bool {
    match job_of(alloc, words) {
        Ok(Job::Load(load)) => match want {
            Read::Load(dumps, link, fillers) => {
                load.dumps.as_slice() == *dumps && load.link == *link && load.fillers == *fillers
            }
            _ => false,
        },
        Err(Refusal::Usage) => matches!(want, Read::NoLoad),
        _ => false,
    }
}

fn is_query(alloc: Global, words: &[String], want: &Read) -> bool {
    match job_of(alloc, words) {
        Ok(Job::Sql { script }) => matches!(want, Read::Sql(name) if script == *name),
        Ok(Job::Query { asks }) => matches!(want, Read::Ask(name) if asks == *name),
        Err(Refusal::Usage) => matches!(want, Read::NoQuery),
        _ => false,
    }
}

fn is_seed(alloc: Global, words: &[String], want: &Read) -> bool {
    match job_of(alloc, words) {
        Ok(Job::Make { seed }) => matches!(want, Read::Seed(number) if seed == *number),
        Err(Refusal::Usage) => matches!(want, Read::NoSeed),
        _ => false,
    }
}

fn is_script(alloc: Global, words: &[String], want: &Read) -> bool {
    match script_of(alloc, words) {
        Ok(found) => {
            let given = given_word(&found, "script");
            let is_dry = is_given(&found, "dry");
            matches!(want, Read::Script(name, dry) if given == *name && is_dry == *dry)
        }
        Err(Refusal::Usage) => matches!(want, Read::NoScript),
        Err(_) => false,
    }
}

fn are_read(alloc: Global, words: &[String], want: &Read) -> bool {
    match want {
        Read::Load(..) | Read::NoLoad => is_load(alloc, words, want),
        Read::Sql(_) | Read::Ask(_) | Read::NoQuery => is_query(alloc, words, want),
        Read::Script(..) | Read::NoScript => is_script(alloc, words, want),
        Read::Seed(_) | Read::NoSeed => is_seed(alloc, words, want),
    }
}

fn is_read(alloc: Global, line: &str, want: &Read) -> bool {
    match words_of(alloc, line) {
        Ok(words) => are_read(alloc, words.as_slice(), want),
        Err(_) => false,
    }
}

type Line = (&'static str, Read);

/// The first of these lines that is read otherwise.
fn other_line(alloc: Global, lines: &[Line]) -> Option<&'static str> {
    for (line, want) in lines {
        if !is_read(alloc, line, want) {
            return Some(*line);
        }
    }
    None
}

const LOADS: &[Line] = &[
    ("load a", Read::Load(&["a"], 1, 1)),
    ("load a b c", Read::Load(&["a", "b", "c"], 1, 1)),
    ("load b a b", Read::Load(&["b", "a", "b"], 1, 1)),
    ("load a --link 2 b", Read::Load(&["a", "b"], 2, 1)),
    ("load --link=2 a b", Read::Load(&["a", "b"], 2, 1)),
    ("load --fillers 8 a", Read::Load(&["a"], 1, 8)),
    ("load --fillers=9 --link 256 a", Read::Load(&["a"], 256, 9)),
    (
        "load --route r --ask s --link 7 --fillers 2 a b",
        Read::Load(&["a", "b"], 7, 2),
    ),
    (
        "load a -- -b --link",
        Read::Load(&["a", "-b", "--link"], 1, 1),
    ),
    (
        "load a a a a a a a a a a a a a a a a a",
        Read::Load(&["a"; 17], 1, 1),
    ),
    ("load", Read::NoLoad),
    ("load --", Read::NoLoad),
    ("load --link 2", Read::NoLoad),
    ("load a  b", Read::NoLoad),
    ("load a -b", Read::NoLoad),
    ("load a b --link", Read::NoLoad),
    ("load a --link 1 b --link 2", Read::NoLoad),
    ("load --link 0 a", Read::NoLoad),
    ("load --fillers 0 a", Read::NoLoad),
    ("load --fillers two a", Read::NoLoad),
    ("load --fillers= a", Read::NoLoad),
    ("load --fillers 1 --fillers 1 a", Read::NoLoad),
    ("load --fillers 10000000000000000000 a", Read::NoLoad),
];

/// They are functions, as the tables below, so that they stand in no goal of their callers.
fn loads() -> &'static [Line] {
    LOADS
}

#[test]
fn reads_the_words_of_a_load(rt: HostRuntime) -> Result<(), Fail> {
    none_other(other_line(rt.alloc(), loads()))
}

/// The words of a load, the limit that they pass before anything is opened, and the one that the numbers of its links
/// do.
type Limits = (&'static str, Option<Which>, Option<Which>);

fn which_of(refusal: Option<Refusal>) -> Option<Which> {
    match refusal {
        Some(Refusal::Limit { which, .. }) => Some(which),
        _ => None,
    }
}

fn are_limits(alloc: Global, line: &str, of_words: Option<Which>, of_links: Option<Which>) -> bool {
    let Ok(words) = words_of(alloc, line) else {
        return false;
    };
    match job_of(alloc, words.as_slice()) {
        Ok(Job::Load(load)) => {
            which_of(load.limit_refusal()) == of_words && which_of(load.links_refusal()) == of_links
        }
        _ => false,
    }
}

/// The first of these lines whose words pass other limits.
fn other_limits(alloc: Global, lines: &[Limits]) -> Option<&'static str> {
    for (line, of_words, of_links) in lines {
        if !are_limits(alloc, line, *of_words, *of_links) {
            return Some(*line);
        }
    }
    None
}

const LIMITS: &[Limits] = &[
    ("load --fillers 8 --link 255 a", None, None),
    (
        "load --link 240 a a a a a a a a a a a a a a a a",
        None,
        None,
    ),
    ("load --link 254 a b c", None, Some(Which::Links)),
    (
        "load --link 9999999999999999999 a b",
        None,
        Some(Which::Links),
    ),
    ("load --fillers 9 a", Some(Which::Fillers), None),
    (
        "load --fillers 9 a a a a a a a a a a a a a a a a a",
        Some(Which::Dumps),
        None,
    ),
];

fn limits() -> &'static [Limits] {
    LIMITS
}

#[test]
fn passes_the_limits_of_a_load(rt: HostRuntime) -> Result<(), Fail> {
    none_other(other_limits(rt.alloc(), limits()))
}

const QUERIES: &[Line] = &[
    ("query --sql f", Read::Sql("f")),
    ("query --ask f", Read::Ask("f")),
    ("query --sql=f", Read::Sql("f")),
    ("query --ask=f", Read::Ask("f")),
    ("query", Read::NoQuery),
    ("query --sql f --ask g", Read::NoQuery),
    ("query --ask g --sql f", Read::NoQuery),
    ("query --ask f --ask g", Read::NoQuery),
    ("query --sql f --sql f", Read::NoQuery),
    ("query --sql", Read::NoQuery),
    ("query --sql=", Read::NoQuery),
    ("query --sql f g", Read::NoQuery),
    ("query f", Read::NoQuery),
];

fn queries() -> &'static [Line] {
    QUERIES
}

#[test]
fn reads_one_of_two(rt: HostRuntime) -> Result<(), Fail> {
    none_other(other_line(rt.alloc(), queries()))
}

const SCRIPTS: &[Line] = &[
    ("a", Read::Script(None, false)),
    ("a b", Read::Script(Some("b"), false)),
    ("a -- -b", Read::Script(Some("-b"), false)),
    ("--dry a", Read::Script(None, true)),
    ("a b --dry", Read::Script(Some("b"), true)),
    ("a -- --dry", Read::Script(Some("--dry"), false)),
    ("a --dry b --dry", Read::NoScript),
    ("a --dry=true", Read::NoScript),
    ("--dry", Read::NoScript),
    ("", Read::NoScript),
    ("a b c", Read::NoScript),
    ("a --script b", Read::NoScript),
];

fn scripts() -> &'static [Line] {
    SCRIPTS
}

#[test]
fn reads_an_optional_word(rt: HostRuntime) -> Result<(), Fail> {
    none_other(other_line(rt.alloc(), scripts()))
}

const SEEDS: &[Line] = &[
    ("make 7", Read::Seed(7)),
    ("make 0", Read::Seed(0)),
    ("make 0000000000000000007", Read::Seed(7)),
    ("make 4294967295", Read::Seed(4_294_967_295)),
    ("make -- 7", Read::Seed(7)),
    ("make 4294967296", Read::NoSeed),
    ("make 00000000000000000007", Read::NoSeed),
    ("make", Read::NoSeed),
    ("make seven", Read::NoSeed),
    ("make 7 8", Read::NoSeed),
    ("make -7", Read::NoSeed),
    ("make --number 7", Read::NoSeed),
];

fn seeds() -> &'static [Line] {
    SEEDS
}

#[test]
fn reads_a_seed(rt: HostRuntime) -> Result<(), Fail> {
    none_other(other_line(rt.alloc(), seeds()))
}
