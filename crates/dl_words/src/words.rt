//! The words of the command line.

ghost use Rattle.std.specs.Prelude.{◌≡◌, codes, map, string_bytes, IfSome};
ghost use Rattle.std.specs.Str.{bytes_eq};
ghost use Rattle.dl_words.specs.Names.{output_name, output_names, is_among};
ghost use Rattle.std.specs.Option.{option_map};
ghost use Rattle.dl_words.specs.Words.{form, form_of, asked_form, IsServable, IsRunnable, form_of_one, form_of_two, command_form, conclude_form, check_form, gen_form, serve_form, family_of, number_of, are_names, are_apart};

use dl_lit::Family;
use dl_read::read_number;

/// The most sessions that are served.
pub const MOST_SESSIONS: usize = 64;

/// The most atoms of a run of generated calls.
pub const MOST_ATOMS: u64 = 4096;

/// What the words ask for.
#[derive(Clone, Copy)]
pub enum Command<'a> {
    /// The conclusions of the theory in a file, in a family.
    Conclude(Family, &'a String),
    /// The canonical text of the theory in a file.
    Print(&'a String),
    /// Whether the second file is a certificate of the theory in the first.
    Check(&'a String, &'a String),
    /// What the calls come to that are generated from a number, with so many atoms.
    Gen(u64, u64),
}

/// What the words ask for: a reply, or sessions.
#[derive(Clone, Copy)]
pub enum Asked<'a> {
    Command(Command<'a>),
    /// Sessions from the theory in a file, each under a name.
    Serve(&'a String, &'a [String]),
}

fn family_of(word: &str) -> Option<Family>
    ensures { result ≡ family_of word.now }
{
    if word == "D" {
        Some(Family::Definite)
    } else if word == "d" {
        Some(Family::Blocking)
    } else if word == "a" {
        Some(Family::Propagating)
    } else if word == "s" {
        Some(Family::Support)
    } else {
        None
    }
}

fn conclude<'a>(family: &str, file: &'a String) -> Option<Command<'a>>
    ensures form { option_map form_of result ≡ conclude_form family.now (string_bytes file.now) }
    ensures may { IfSome result IsRunnable }
{
    if file.is_empty() {
        return None;
    }
    let family = family_of(family)?;
    Some(Command::Conclude(family, file))
}

fn check<'a>(theory: &'a String, cert: &'a String) -> Option<Command<'a>>
    ensures form { option_map form_of result ≡ check_form (string_bytes theory.now) (string_bytes cert.now) }
    ensures may { IfSome result IsRunnable }
{
    if theory.is_empty() || cert.is_empty() {
        None
    } else {
        Some(Command::Check(theory, cert))
    }
}

/// The number that a word is, as sessions spell it.
fn number_of(word: &str) -> Option<u64>
    ensures { result ≡ number_of word.now }
{
    read_number(word.as_bytes())
}

fn generate<'a>(seed: &str, size: &str) -> Option<Command<'a>>
    ensures form { option_map form_of result ≡ gen_form seed.now size.now }
    ensures may { IfSome result IsRunnable }
{
    let seed = number_of(seed)?;
    let size = number_of(size)?;
    if size > MOST_ATOMS {
        return None;
    }
    Some(Command::Gen(seed, size))
}

/// Whether the word is the output of a session with this name.
fn is_output(word: &str, name: &str) -> bool
    ensures { result ≡ bytes_eq (output_name name.now) word.now }
{
    match word.as_bytes().strip_suffix(b".out") {
        Some(front) => front == name.as_bytes(),
        None => false,
    }
}

/// Whether one of the words is this name.
fn is_among(name: &str, words: &[String]) -> bool
    ensures { result ≡ is_among name.now (map string_bytes words.now) }
{
    for word in words {
        if word.as_str() == name {
            return true;
        }
    }
    false
}

/// Whether the word is the output of a session with one of these names.
fn is_among_outputs(word: &str, names: &[String]) -> bool
    ensures { result ≡ is_among word.now (output_names (map string_bytes names.now)) }
{
    for name in names {
        if is_output(word, name.as_str()) {
            return true;
        }
    }
    false
}

/// Whether no word is empty, and none comes twice.
fn are_names(words: &[String]) -> bool
    ensures { result ≡ are_names (map string_bytes words.now) }
{
    let mut rest = words;
    while let Some((word, others)) = rest.split_first() {
        if word.is_empty() || is_among(word.as_str(), others) {
            return false;
        }
        rest = others;
    }
    true
}

/// Whether none of the words is the output of a session with one of these names.
fn are_apart(words: &[String], names: &[String]) -> bool
    ensures { result ≡ are_apart (map string_bytes words.now) (output_names (map string_bytes names.now)) }
{
    for word in words {
        if is_among_outputs(word.as_str(), names) {
            return false;
        }
    }
    true
}

/// Sessions from the theory in the first of the words, each under one of the others. Each word is compared with each: they are few.
fn serve(words: &[String]) -> Option<Asked<'_>>
    ensures form { option_map asked_form result ≡ serve_form (map string_bytes words.now) }
    ensures may { IfSome result IsServable }
{
    let (theory, names) = words.split_first()?;
    if names.is_empty() || names.len() > MOST_SESSIONS {
        return None;
    }
    if are_names(words) && are_apart(words, names) {
        Some(Asked::Serve(theory, names))
    } else {
        None
    }
}

fn command_of_one<'a>(command: &str, file: &'a String) -> Option<Command<'a>>
    ensures form { option_map form_of result ≡ form_of_one command.now (string_bytes file.now) }
    ensures may { IfSome result IsRunnable }
{
    if command == "print" && !file.is_empty() {
        Some(Command::Print(file))
    } else {
        None
    }
}

fn command_of_two<'a>(command: &str, first: &'a String, second: &'a String) -> Option<Command<'a>>
    ensures form { option_map form_of result ≡ form_of_two command.now (string_bytes first.now) (string_bytes second.now) }
    ensures may { IfSome result IsRunnable }
{
    if command == "conclude" {
        conclude(first.as_str(), second)
    } else if command == "check" {
        check(first, second)
    } else if command == "gen" {
        generate(first.as_str(), second.as_str())
    } else {
        None
    }
}

fn command_of<'a>(command: &str, words: &'a [String]) -> Option<Command<'a>>
    ensures form { option_map form_of result ≡ command_form command.now (map string_bytes words.now) }
    ensures may { IfSome result IsRunnable }
{
    let (first, others) = words.split_first()?;
    match others {
        [] => command_of_one(command, first),
        [second] => command_of_two(command, first, second),
        _ => None,
    }
}

/// What these words ask for, if they have a form.
pub fn asked_of(words: &Vec<String>) -> Option<Asked<'_>>
    ensures form { option_map asked_form result ≡ form (map string_bytes words.now.items) }
    ensures may { IfSome result IsServable }
{
    let (command, others) = words.as_slice().split_first()?;
    if command.as_str() == "serve" {
        return serve(others);
    }
    let command = command_of(command.as_str(), others)?;
    Some(Asked::Command(command))
}
