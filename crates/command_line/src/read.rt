//! Reads the words of the command line.

ghost use Rattle.std.specs.Prelude.{◌≡◌, IfErr, IfOk, None, Some, map, option_and_then, string_bytes};
ghost use Rattle.clap.specs.Words.{found_of, kind_of, rows_of, subcommand_rows_of};
ghost use Rattle.command_line.specs.Asked.{OnWrongUse, asked_by, asked_of, audit_in, command_in, command_of, decode_in, encode_in, run_in};
ghost use Rattle.command_line.specs.Asked.{handles_of, is_at_once, order_in, order_of, side_in, text_at, texts, texts_at};
ghost use Rattle.command_line.specs.Asked.{counted, in_load, load_in, messages_in, messages_of, seed_in};

use crate::asked::{Command, MessageCount, RunAtOnce, Side, Words, WordsError};
use crate::definition::tool_command;
use clap::error::ErrorKind;
use clap::{ArgMatches, Error};
use std::alloc::{AllocError, Global};

/// The value under a name.
fn text_of<'a>(matches: &ArgMatches<'a>, name: &str) -> &'a str
    ensures { result.now ≡ text_at name.now (rows_of (found_of matches.now)) }
{
    matches.get_str(name).unwrap_or("")
}

/// The values under a name, in the order given.
fn texts_of<'a>(
    alloc: Global,
    matches: &ArgMatches<'a>,
    name: &str,
) -> Result<Vec<&'a str>, AllocError>
    ensures { IfOk result (λ found. texts found.items ≡ texts_at name.now (rows_of (found_of matches.now))) }
{
    let mut texts = Vec::new(alloc);
    if let Some(found) = matches.get_raw(name) {
        texts.extend_from_slice(found)?;
    }
    Ok(texts)
}

/// The response where `--response` stands.
fn side_of(matches: &ArgMatches<'_>) -> Side
    ensures { result ≡ side_in (rows_of (found_of matches.now)) }
{
    if text_of(matches, "response") == "true" {
        Side::Response
    } else {
        Side::Request
    }
}

/// The number of 64 bits that the text is, in decimal digits without a sign or a leading zero.
fn read_order(alloc: Global, text: &str) -> Result<Option<u64>, AllocError>
    ensures { IfOk result (λ order. order ≡ order_of text.now) }
{
    let number = text.parse::<u64>().unwrap_or(0);
    let spelled = format!(in alloc; "{number}")?;
    if spelled.as_str() == text {
        Ok(Some(number))
    } else {
        Ok(None)
    }
}

/// The number from 0 to 64 that the text is, in decimal digits without a sign or a leading zero.
///
/// The integers that `clap` reads may have both, so it takes any text here.
#[tactic(auto, using(clap::proofs::WalkLemmas::byte_read))]
fn read_handles(alloc: Global, text: &str) -> Result<Option<u32>, AllocError>
    ensures { IfOk result (λ handles. handles ≡ handles_of text.now) }
{
    let number = text.parse::<u8>().unwrap_or(0);
    let spelled = format!(in alloc; "{number}")?;
    if spelled.as_str() == text && number <= 64 {
        Ok(Some(u32::from(number)))
    } else {
        Ok(None)
    }
}

/// The number from 1 to 1,000,000 that a number is.
fn in_load(number: u64) -> Option<MessageCount>
    ensures { counted result ≡ in_load number }
{
    if 1 <= number && number <= 1_000_000 {
        Some(MessageCount { count: number })
    } else {
        None
    }
}

/// The number from 1 to 1,000,000 that the text is, in decimal digits without a sign or a leading zero.
fn read_messages(alloc: Global, text: &str) -> Result<Option<MessageCount>, AllocError>
    ensures { IfOk result (λ messages. counted messages ≡ messages_of text.now) }
{
    let number = read_order(alloc, text)?;
    match number {
        Some(number) => Ok(in_load(number)),
        None => Ok(None),
    }
}

/// The refusal of the number behind an option, which is at least one number and at most another.
fn wrong_number(
    alloc: Global,
    text: &str,
    option: &str,
    least: u64,
    most: u64,
) -> Result<WordsError, AllocError> {
    let line = format!(in alloc;
        "error: invalid value '{text}' for '--{option} <{option}>': a number from {least} to {most}

For more information, try '--help'.
"
    )?;
    Ok(WordsError::WrongUse(line))
}

/// The order that is asked for: 0 where none is given.
fn found_order(alloc: Global, found: &ArgMatches<'_>) -> Result<u64, WordsError>
    ensures ok { IfOk result (λ order. Some order ≡ order_in (rows_of (found_of found.now))) }
    ensures wrong_use { IfErr result (OnWrongUse (order_in (rows_of (found_of found.now)) ≡ None)) }
{
    let Some(text) = found.get_str("order") else {
        return Ok(0);
    };
    match read_order(alloc, text)? {
        Some(order) => Ok(order),
        None => Err(wrong_number(alloc, text, "order", 0, u64::MAX)?),
    }
}

/// Whether `--threads` stands.
fn at_once(found: &ArgMatches<'_>) -> bool
    ensures { result ≡ is_at_once (rows_of (found_of found.now)) }
{
    text_of(found, "threads") == "true"
}

/// `run` with the values that `clap` found.
fn found_run<'a>(alloc: Global, found: &ArgMatches<'a>) -> Result<Words<'a>, WordsError>
    ensures ok { IfOk result (λ words. Some (asked_by words) ≡ run_in (rows_of (found_of found.now))) }
    ensures wrong_use { IfErr result (OnWrongUse (run_in (rows_of (found_of found.now)) ≡ None)) }
{
    let order = found_order(alloc, found)?;
    let script = text_of(found, "script");
    let files = texts_of(alloc, found, "FILE")?;
    if at_once(found) {
        return Ok(Words::AtOnce(RunAtOnce { script, files }));
    }
    Ok(Words::Alone(Command::Run {
        script,
        order,
        files,
    }))
}

/// `encode` with the values that `clap` found.
fn found_encode<'a>(alloc: Global, found: &ArgMatches<'a>) -> Result<Command<'a>, AllocError>
    ensures { IfOk result (λ command. asked_of command ≡ encode_in (rows_of (found_of found.now))) }
{
    Ok(Command::Encode {
        method: text_of(found, "method"),
        side: side_of(found),
        value: text_of(found, "value"),
        files: texts_of(alloc, found, "FILE")?,
    })
}

/// `decode` with the values that `clap` found.
fn found_decode<'a>(alloc: Global, found: &ArgMatches<'a>) -> Result<Words<'a>, WordsError>
    ensures ok { IfOk result (λ words. Some (asked_by words) ≡ decode_in (rows_of (found_of found.now))) }
    ensures wrong_use { IfErr result (OnWrongUse (decode_in (rows_of (found_of found.now)) ≡ None)) }
{
    let text = text_of(found, "handles");
    let Some(handles) = read_handles(alloc, text)? else {
        return Err(wrong_number(alloc, text, "handles", 0, 64)?);
    };
    Ok(Words::Alone(Command::Decode {
        interface: text_of(found, "interface"),
        side: side_of(found),
        handles,
        message: text_of(found, "message"),
        files: texts_of(alloc, found, "FILE")?,
    }))
}

/// The seed that is given.
fn found_seed(alloc: Global, found: &ArgMatches<'_>) -> Result<u64, WordsError>
    ensures ok { IfOk result (λ seed. Some seed ≡ seed_in (rows_of (found_of found.now))) }
    ensures wrong_use { IfErr result (OnWrongUse (seed_in (rows_of (found_of found.now)) ≡ None)) }
{
    let text = text_of(found, "seed");
    let Some(seed) = read_order(alloc, text)? else {
        return Err(wrong_number(alloc, text, "seed", 0, u64::MAX)?);
    };
    Ok(seed)
}

/// The number of messages that is given.
fn found_messages(alloc: Global, found: &ArgMatches<'_>) -> Result<MessageCount, WordsError>
    ensures ok { IfOk result (λ messages. Some messages.count ≡ messages_in (rows_of (found_of found.now))) }
    ensures wrong_use { IfErr result (OnWrongUse (messages_in (rows_of (found_of found.now)) ≡ None)) }
{
    let text = text_of(found, "messages");
    let Some(messages) = read_messages(alloc, text)? else {
        return Err(wrong_number(alloc, text, "messages", 1, 1_000_000)?);
    };
    Ok(messages)
}

/// `load` with the values that `clap` found.
fn found_load<'a>(alloc: Global, found: &ArgMatches<'a>) -> Result<Words<'a>, WordsError>
    ensures ok { IfOk result (λ words. Some (asked_by words) ≡ load_in (rows_of (found_of found.now))) }
    ensures wrong_use { IfErr result (OnWrongUse (load_in (rows_of (found_of found.now)) ≡ None)) }
{
    let seed = found_seed(alloc, found)?;
    let messages = found_messages(alloc, found)?;
    Ok(Words::Alone(Command::Load { seed, messages }))
}

/// `audit` with the values that `clap` found.
fn found_audit<'a>(alloc: Global, found: &ArgMatches<'a>) -> Result<Command<'a>, AllocError>
    ensures { IfOk result (λ command. asked_of command ≡ audit_in (rows_of (found_of found.now))) }
{
    Ok(Command::Audit {
        script: text_of(found, "script"),
        history: text_of(found, "history"),
        files: texts_of(alloc, found, "FILE")?,
    })
}

/// The command that `clap` found.
fn found_command<'a>(alloc: Global, matches: &ArgMatches<'a>) -> Result<Words<'a>, WordsError>
    ensures ok { IfOk result (λ words. Some (asked_by words) ≡ option_and_then command_in (subcommand_rows_of matches.now)) }
    ensures wrong_use { IfErr result (OnWrongUse (option_and_then command_in (subcommand_rows_of matches.now) ≡ None)) }
{
    let Some((name, found)) = matches.subcommand() else {
        // Not reached: words without a fault have a command.
        return Err(WordsError::WrongUse(String::new(alloc)));
    };
    if name == "run" {
        return found_run(alloc, found);
    }
    if name == "print" {
        return Ok(Words::Alone(Command::Print {
            file: text_of(found, "FILE"),
        }));
    }
    if name == "check" {
        return Ok(Words::Alone(Command::Check {
            files: texts_of(alloc, found, "FILE")?,
        }));
    }
    if name == "encode" {
        return Ok(Words::Alone(found_encode(alloc, found)?));
    }
    if name == "decode" {
        return found_decode(alloc, found);
    }
    if name == "audit" {
        return Ok(Words::Alone(found_audit(alloc, found)?));
    }
    if name == "compat" {
        return Ok(Words::Alone(Command::Compat {
            old: text_of(found, "OLD"),
            new: text_of(found, "NEW"),
        }));
    }
    found_load(alloc, found)
}

/// What stands for an error of `clap`: its text, or want of memory.
fn refusal(alloc: Global, error: Error) -> WordsError
    ensures { OnWrongUse (kind_of error ≡ ErrorKind.OutOfMemory → ⊥) result }
{
    if error.kind() == ErrorKind::OutOfMemory {
        return WordsError::Memory;
    }
    match format!(in alloc; "{error}") {
        Ok(text) => WordsError::WrongUse(text),
        Err(_) => WordsError::Memory,
    }
}

/// The command in the words, which begin with the program's name: `run --script SCRIPT [--order ORDER] [--threads] FILE..`,
/// `print FILE`, `check FILE..`, `encode --method METHOD [--response] --value VALUE FILE..`,
/// `decode --interface INTERFACE [--response] --handles HANDLES --message MESSAGE FILE..`,
/// `load --seed SEED --messages MESSAGES`, `audit --script SCRIPT --history HISTORY FILE..` or `compat OLD NEW`, in
/// each spelling that `clap` takes, where ORDER and SEED are numbers of 64 bits, HANDLES is one from 0 to 64, and MESSAGES one
/// from 1 to 1,000,000, without a sign or a leading zero. With `--threads` the order is read, but it is for nothing.
///
/// Words that are no command, or ask for help, are a wrong use, with the text for it, `clap`'s own but
/// for a wrong number, which only tests look at. The other error is want of memory.
pub fn read_words<'a>(alloc: Global, words: &'a [String]) -> Result<Words<'a>, WordsError>
    ensures ok { IfOk result (λ read. Some (asked_by read) ≡ command_of (map string_bytes words.now)) }
    ensures wrong_use { IfErr result (OnWrongUse (command_of (map string_bytes words.now) ≡ None)) }
{
    let tool = tool_command(alloc)?;
    match tool.try_get_matches_from(words) {
        Ok(matches) => found_command(alloc, &matches),
        Err(error) => Err(refusal(alloc, error)),
    }
}
