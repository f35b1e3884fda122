//! The words behind a command, read by clap.

ghost use Rattle.std.specs.Prelude.{◌≡◌, ◌≢◌, map, string_bytes, Some, IfOk, IfErr, true, not, nat_eq, codes, ◌&&◌, ◌⊎◌, false, None, option_map, position, ◌==◌, ◌<◌, length, IfSome};
ghost use Rattle.std.specs.List.{list_all};
ghost use Rattle.std.specs.Str.{bytes_eq};
ghost use Rattle.clap.specs.Words.{app_of, is_simple, one_text, rows_of, found_of};
ghost use Rattle.clap.specs.Faults.{is_simple_and_free};
ghost use Rattle.clap.specs.Walk.{rule_of, is_empty, first_of};
ghost use Rattle.command_words.specs.Words.{are_plain, are_filled, are_whole, is_whole_word, rows_of_words, AreNoRows, plain_app, is_last};
ghost use Rattle.command_words.specs.Arguments.{argument_rule, command_app};
ghost use Rattle.command_words.specs.Given.{one_of_two, one_view, repeated_words};

use clap::error::ErrorKind;
use clap::{Arg, ArgAction, ArgMatches, Command};
use refusals::Refusal;
use std::alloc::{AllocError, Global};

/// An argument that a command takes.
#[derive(Clone, Copy, Debug)]
pub enum Argument<'a> {
    /// A word that has to come.
    Word(&'a str),
    /// A word that may come. It stands behind every `Word`.
    Optional(&'a str),
    /// One word or more. It stands behind every `Word`.
    Repeated(&'a str),
    /// An option `--id value` or `--id=value`, which may have to come.
    Option { id: &'a str, required: bool },
    /// An option `--id` without a value, which may come.
    Flag(&'a str),
}

/// What clap finds in the words behind a command that takes these arguments.
pub fn read_arguments<'a>(
    alloc: Global,
    name: &'a str,
    arguments: &[Argument<'a>],
    words: &'a [String],
) -> Result<ArgMatches<'a>, Refusal>
    requires simple { is_simple (command_app name.now (map argument_rule arguments.now)) ≡ true }
    requires free { is_simple_and_free (command_app name.now (map argument_rule arguments.now)) ≡ true }
    ensures found { IfOk result (λ found. rows_of_words (command_app name.entry.now (map argument_rule arguments.now))
        (map (λ w. string_bytes w) words.entry.now) ≡ Some (rows_of (found_of found))) }
    ensures none { IfErr result (AreNoRows (rows_of_words (command_app name.entry.now
        (map argument_rule arguments.now)) (map (λ w. string_bytes w) words.entry.now))) }
{
    match command_of(alloc, name, arguments) {
        Ok(command) => read_words(command, words),
        Err(_) => Err(Refusal::OutOfMemory),
    }
}

/// A command of one level that takes these arguments.
fn command_of<'a>(
    alloc: Global,
    name: &'a str,
    arguments: &[Argument<'a>],
) -> Result<Command<'a>, AllocError>
    ensures { IfOk result (λ command. app_of command ≡ command_app name.entry.now (map argument_rule arguments.now)) }
{
    let mut command = plain_command(alloc, name);
    for argument in arguments {
        command = command.arg(arg_of(alloc, *argument))?;
    }
    Ok(command)
}

/// A command without arguments. It has no flags of clap's own.
fn plain_command<'a>(alloc: Global, name: &'a str) -> Command<'a>
    ensures { app_of result ≡ plain_app name.entry.now }
{
    Command::new(alloc, name)
        .no_binary_name(true)
        .disable_help_flag(true)
        .disable_version_flag(true)
}

/// An argument as clap takes it.
fn arg_of<'a>(alloc: Global, argument: Argument<'a>) -> Arg<'a>
    ensures rule { rule_of result ≡ argument_rule argument.entry }
    ensures local { result.global ≡ false }
{
    match argument {
        Argument::Word(id) => Arg::new(alloc, id).action(ArgAction::Set).required(true),
        Argument::Optional(id) => Arg::new(alloc, id).action(ArgAction::Set),
        Argument::Repeated(id) => Arg::new(alloc, id).action(ArgAction::Append).required(true),
        Argument::Option { id, required } => Arg::new(alloc, id)
            .long(id)
            .action(ArgAction::Set)
            .required(required),
        Argument::Flag(id) => Arg::new(alloc, id).long(id).action(ArgAction::SetTrue),
    }
}

/// The word that was given for an id, where one was.
pub fn given_word<'a>(found: &ArgMatches<'a>, id: &str) -> Option<&'a str>
    ensures { option_map (λ word. word.now) result ≡ first_of id.now (rows_of (found_of found.now)) }
{
    found.get_str(id)
}

/// Whether the option of a `Flag` was given: clap finds the text `true` for it then, else `false`.
pub fn is_given(found: &ArgMatches<'_>, id: &str) -> bool
    ensures given { one_text (found_of found.now) id.now ≡ Some (codes "true") → result ≡ true }
    ensures otherwise { one_text (found_of found.now) id.now ≡ Some (codes "false") → result ≡ false }
    ensures unknown { one_text (found_of found.now) id.now ≡ None → result ≡ false }
{
    found.get_flag(id)
}

/// The words that were found for the id of a `Repeated`, in their order: one or more.
pub fn repeated_words<'f, 'a>(found: &'f ArgMatches<'a>, id: &str) -> Result<&'f [&'a str], Refusal>
    ensures words { IfOk result (λ words. repeated_words id.now (rows_of (found_of found.now)) ≡ Some
        (map (λ word. word.now) words.now)) }
    ensures none { IfErr result (λ refusal. (refusal ≡ Refusal.Usage) ×
        (repeated_words id.now (rows_of (found_of found.now)) ≡ None)) }
{
    let Some(words) = found.get_strs(id) else {
        return Err(Refusal::Usage);
    };
    if words.is_empty() {
        return Err(Refusal::Usage);
    }
    Ok(words)
}

/// The word of the one of two options that was given.
#[derive(Clone, Copy, Debug, PartialEq, Eq)]
pub enum OneOfTwo<'a> {
    First(&'a str),
    Second(&'a str),
}

/// The word of the one of two options that was given, where the other wasn't: `Usage` where both were, or none.
pub fn one_of_two<'a>(
    first: Option<&'a str>,
    second: Option<&'a str>,
) -> Result<OneOfTwo<'a>, Refusal>
    ensures one { IfOk result (λ one. one_of_two (option_map (λ word. word.now) first.entry)
        (option_map (λ word. word.now) second.entry) ≡ Some (one_view one)) }
    ensures none { IfErr result (λ refusal. (refusal ≡ Refusal.Usage) × (one_of_two
        (option_map (λ word. word.now) first.entry) (option_map (λ word. word.now) second.entry) ≡ None)) }
{
    match (first, second) {
        (Some(word), None) => Ok(OneOfTwo::First(word)),
        (None, Some(word)) => Ok(OneOfTwo::Second(word)),
        (Some(_), Some(_)) | (None, None) => Err(Refusal::Usage),
    }
}

/// What clap finds in the words, where they are plain.
fn read_words<'a>(command: Command<'a>, words: &'a [String]) -> Result<ArgMatches<'a>, Refusal>
    requires simple { is_simple (app_of command) ≡ true }
    requires free { is_simple_and_free (app_of command) ≡ true }
    ensures found { IfOk result (λ found.
        rows_of_words (app_of command.entry) (map (λ w. string_bytes w) words.entry.now) ≡ Some
        (rows_of (found_of found))) }
    ensures none { IfErr result
        (AreNoRows (rows_of_words (app_of command.entry) (map (λ w. string_bytes w) words.entry.now))) }
{
    if !are_plain(words) {
        return Err(Refusal::Usage);
    }
    match command.try_get_matches_from(words) {
        Ok(found) => Ok(found),
        Err(error) => Err(refusal_of(error.kind())),
    }
}

/// The refusal of words in which clap finds a fault.
fn refusal_of(kind: ErrorKind) -> Refusal
    ensures { ((result ≡ Refusal.Usage) × (kind ≢ ErrorKind.OutOfMemory)) ⊎ (result ≡ Refusal.OutOfMemory) }
{
    match kind {
        ErrorKind::OutOfMemory => Refusal::OutOfMemory,
        _ => Refusal::Usage,
    }
}

/// Whether clap may read the words: it takes empty words and values, and a lone `-`.
fn are_plain(words: &[String]) -> bool
    ensures { result ≡ are_plain (map (λ w. string_bytes w) words.now) }
{
    are_filled(words) && are_whole(words)
}

/// Whether no word is empty.
fn are_filled(words: &[String]) -> bool
    ensures { result ≡ are_filled (map (λ w. string_bytes w) words.now) }
{
    for word in words {
        if word.is_empty() {
            return false;
        }
    }
    true
}

/// Whether the words are whole up to the end of the options.
fn are_whole(words: &[String]) -> bool
    ensures { result ≡ are_whole (map (λ w. string_bytes w) words.now) }
{
    for word in words {
        if word.as_str() == "--" {
            return true;
        }
        if !is_whole(word.as_str()) {
            return false;
        }
    }
    true
}

/// Whether a word may stand where options may: it's no lone `-`, and no option with an empty value.
#[tactic(auto, unfolding(crate::specs::Words::is_whole_word))]
fn is_whole(word: &str) -> bool
    ensures { result ≡ is_whole_word word.now }
{
    word != "-" && !(word.starts_with("--") && ends_at_equals(word))
}

/// Whether the first `=` of a word is its last octet.
fn ends_at_equals(word: &str) -> bool
    ensures { result ≡ is_last (position (λ octet. octet == 61) word.now) word.now }
{
    match first_equals(word) {
        None => false,
        Some(at) => at + 1 == word.len(),
    }
}

/// The place of the first `=` of a word.
fn first_equals(word: &str) -> Option<usize>
    ensures value { result ≡ position (λ octet. octet == 61) word.now }
    ensures within { IfSome result (λ at. at < length word.now) }
{
    word.as_bytes().iter().position(|octet| *octet == b'=')
}
