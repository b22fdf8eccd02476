//! What the words of the command line ask for.
ghost use Rattle.std.specs.Prelude.{◌≡◌, ◌⊎◌, All, Any, IfErr, IfOk, OnOk, IsUtf8, None};
ghost use Rattle.std.specs.Prelude.{codes, false, map, option_and_then};
ghost use Rattle.clap.specs.Words.{FailsBy, app_of, fault_of, first_value, found_of, kind_of};
ghost use Rattle.clap.specs.Words.{one_text, rule_of};
ghost use Rattle.gbrun.specs.CommandLine.{ComesOf, Chooses, LeadsTo, command_line, number_text_of};
ghost use Rattle.gbrun.specs.CommandLine.{text_of};
ghost use Rattle.gbrun.specs.CommandLine.{order_rule, rows_rule, script_rule, workers_rule};
ghost use Rattle.gbrun.specs.Faults.{IsCommandLine};
ghost use Rattle.gbrun.specs.Orders.{order_of};

use crate::fault::Fault;
use crate::order::order_named;
use clap::error::ErrorKind;
use clap::{Arg, ArgMatches, Command, Error, value_parser};
use desk::Order;
use std::alloc::{AllocError, Global};

/// What the command line asks for.
#[derive(Drop)]
pub enum Request<'a> {
    /// To print this text: the help or the version.
    Print(String),
    /// To run a script.
    Run(Options<'a>),
}

/// How to run a script. No answer shows which options were chosen.
#[derive(Clone, Copy, Debug, PartialEq, Eq)]
pub struct Options<'a> {
    /// How many threads work beside the one that reads the script.
    pub workers: u64,
    /// How many rows a piece of a large call has at least.
    pub rows: u64,
    /// In which order the work that was put off is done.
    pub order: Order,
    /// The name of the file with the script; the script is standard input where there is none.
    pub script: Option<&'a str>,
}

const WORKERS: u64 = 4;

const ROWS: u64 = 256;

/// The words as text.
pub fn texts<'a>(alloc: Global, words: &'a [Vec<u8>]) -> Result<Vec<&'a str>, Fault>
    ensures ok { IfOk result (λ texts. map (λ text. text.now) texts.items
        ≡ map (λ word. word.items) words.entry.now) }
    ensures utf8 { OnOk result (All (λ word. IsUtf8 word.items) words.entry.now) }
    ensures err { IfErr result (λ fault. (fault ≡ Fault.OutOfMemory)
        ⊎ (IsCommandLine fault × Any (λ word. ¬ (IsUtf8 word.items)) words.entry.now)) }
{
    let mut texts = Vec::new(alloc);
    for word in words {
        texts.push(text(alloc, word.as_slice())?)?;
    }
    Ok(texts)
}

fn text<'a>(alloc: Global, word: &'a [u8]) -> Result<&'a str, Fault>
    ensures ok { IfOk result (λ text. text.now ≡ word.entry.now) }
    ensures utf8 { OnOk result (IsUtf8 word.entry.now) }
    ensures err { IfErr result (λ fault. (fault ≡ Fault.OutOfMemory)
        ⊎ (IsCommandLine fault × ¬ (IsUtf8 word.entry.now))) }
{
    match str::from_utf8(word) {
        Ok(text) => Ok(text),
        Err(_) => Err(no_text(alloc)?),
    }
}

/// Reads the words after the program's name.
pub fn parse<'a>(alloc: Global, words: &'a [&'a str]) -> Result<Request<'a>, Fault>
    ensures { ComesOf (map (λ word. word.now) words.entry.now) result }
{
    match matches(alloc, words) {
        Ok(matches) => Ok(Request::Run(chosen(&matches)?)),
        Err(error) => told(alloc, &error),
    }
}

fn matches<'a>(alloc: Global, words: &'a [&'a str]) -> Result<ArgMatches<'a>, Error>
    ensures fails { FailsBy (fault_of command_line (map (λ word. word.now) words.entry.now)) result }
    ensures workers { IfOk result (λ matches. one_text (found_of matches) (codes "workers")
        ≡ number_text_of (codes "workers") (map (λ word. word.now) words.entry.now)) }
    ensures rows { IfOk result (λ matches. one_text (found_of matches) (codes "rows")
        ≡ number_text_of (codes "rows") (map (λ word. word.now) words.entry.now)) }
    ensures order { IfOk result (λ matches. first_value (found_of matches) (codes "order")
        ≡ text_of (codes "order") (map (λ word. word.now) words.entry.now)) }
    ensures script { IfOk result (λ matches. first_value (found_of matches) (codes "script")
        ≡ text_of (codes "script") (map (λ word. word.now) words.entry.now)) }
{
    command(alloc)?.try_get_matches_from(words)
}

fn command<'a>(alloc: Global) -> Result<Command<'a>, AllocError>
    ensures { IfOk result (λ command. app_of command ≡ command_line) }
{
    Command::new(alloc, "gbrun")
        .version("0.1.0")
        .about("Runs a script of GraphBLAS calls")
        .no_binary_name(true)
        .arg(workers(alloc))?
        .arg(rows(alloc))?
        .arg(order(alloc))?
        .arg(script(alloc))
}

fn workers<'a>(alloc: Global) -> Arg<'a>
    ensures rule { rule_of result ≡ workers_rule }
    ensures local { result.global ≡ false }
{
    Arg::new(alloc, "workers")
        .long("workers")
        .value_name("N")
        .value_parser(value_parser!(u64).range(0..=64))
        .default_value("4")
        .help("Threads that work beside the first, 0 to 64; the output is the same for each N")
}

fn rows<'a>(alloc: Global) -> Arg<'a>
    ensures rule { rule_of result ≡ rows_rule }
    ensures local { result.global ≡ false }
{
    Arg::new(alloc, "rows")
        .long("rows")
        .value_name("R")
        .value_parser(value_parser!(u64).range(1..=4294967296))
        .default_value("256")
        .help("Least rows in a piece of work, 1 to 4294967296; the output is the same for each R")
}

fn order<'a>(alloc: Global) -> Arg<'a>
    ensures rule { rule_of result ≡ order_rule }
    ensures local { result.global ≡ false }
{
    Arg::new(alloc, "order")
        .long("order")
        .value_name("ORDER")
        .default_value("first")
        .help("Order of the work: first, last or seed:K, K below 2^64; the output is the same")
}

fn script<'a>(alloc: Global) -> Arg<'a>
    ensures rule { rule_of result ≡ script_rule }
    ensures local { result.global ≡ false }
{
    Arg::new(alloc, "script")
        .value_name("SCRIPT")
        .help("File with the script; standard input where none is named")
}

fn chosen<'a>(matches: &ArgMatches<'a>) -> Result<Options<'a>, Fault>
    ensures ok { IfOk result (Chooses (one_text (found_of matches.now) (codes "workers"))
        (one_text (found_of matches.now) (codes "rows"))
        (first_value (found_of matches.now) (codes "order"))
        (first_value (found_of matches.now) (codes "script"))) }
    ensures err { IfErr result (λ fault. (fault ≡ Fault.BadOrder)
        × (option_and_then order_of (first_value (found_of matches.now) (codes "order")) ≡ None)) }
{
    let order = matches.get_str("order").and_then(order_named);
    Ok(Options {
        workers: matches.get_one("workers").unwrap_or(WORKERS),
        rows: matches.get_one("rows").unwrap_or(ROWS),
        order: order.ok_or(Fault::BadOrder)?,
        script: matches.get_str("script"),
    })
}

// Where clap gives no matches, it has a text to print or tells what is wrong.
fn told<'a>(alloc: Global, error: &Error) -> Result<Request<'a>, Fault>
    ensures { LeadsTo (kind_of error.now) result }
{
    match error.kind() {
        ErrorKind::OutOfMemory => Err(Fault::OutOfMemory),
        ErrorKind::DisplayHelp | ErrorKind::DisplayVersion => {
            Ok(Request::Print(error.to_string(alloc)?))
        }
        _ => Err(Fault::CommandLine(error.to_string(alloc)?)),
    }
}

fn no_text(alloc: Global) -> Result<Fault, AllocError>
    ensures { IfOk result IsCommandLine }
{
    let message = "invalid UTF-8 was detected in one or more arguments";
    let error = command(alloc)?.error(ErrorKind::InvalidValue, message)?;
    Ok(Fault::CommandLine(error.to_string(alloc)?))
}
