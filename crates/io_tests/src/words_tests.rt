//! Spellings that are taken, words that are not, and what is said of them.

use command_line::{Command, Side, Words, WordsError, read_words};
use std::alloc::{AllocError, Global};
use std::test::Fail;

const HELP: &str = "Reads Mojom files

Usage: mojo <COMMAND>

Commands:
  run     Runs a script over Mojom files, and prints its history
  print   Prints the canonical text of a Mojom file, without its comments
  check   Checks Mojom files, and prints their tables
  encode  Encodes the text of a value, and prints the message in hexadecimal
  decode  Decodes a message in hexadecimal, and prints its method, request id and value
  load    Runs calls and answers by numbers that are drawn, and counts what they did
  audit   Audits the printed history of a run, and prints how many events it has
  compat  Tells whether a newer Mojom file reads what an older one writes
  help    Print this message or the help of the given subcommand(s)

Options:
  -h, --help  Print help

Exit status: 0 all was done; 1 a file is refused, or incompatible; 2 the words are no command,
or ask for help; 3 a file could not be read; 4 standard output failed; 5 want of memory.
";

const NO_FILE: &str = "error: the following required arguments were not provided:
  <FILE>...

Usage: mojo run --script <script> <FILE>...

For more information, try '--help'.
";

const NO_FILES: &str = "error: the following required arguments were not provided:
  <FILE>...

Usage: mojo check <FILE>...

For more information, try '--help'.
";

const NO_VALUE: &str = "error: the following required arguments were not provided:
  --value <value>

Usage: mojo encode --method <method> --value <value> <FILE>...

For more information, try '--help'.
";

const NO_ORDER: &str =
    "error: invalid value '01' for '--order <order>': a number from 0 to 18446744073709551615

For more information, try '--help'.
";

const NO_NUMBER: &str = "error: invalid value '65' for '--handles <handles>': a number from 0 to 64

For more information, try '--help'.
";

/// Lines that are commands, and what each asks for.
const SPELLINGS: [(&str, &str); 30] = [
    ("mojo run --script s g f", "run s by 0 then g then f"),
    ("mojo run --script=s g f", "run s by 0 then g then f"),
    ("mojo run g --script s f", "run s by 0 then g then f"),
    ("mojo run --script s g -- f", "run s by 0 then g then f"),
    (
        "mojo run --script s --order 18446744073709551615 g f",
        "run s by 18446744073709551615 then g then f",
    ),
    (
        "mojo run g --order=18446744073709551615 f --script=s",
        "run s by 18446744073709551615 then g then f",
    ),
    (
        "mojo run --script s --threads g f",
        "run s at once then g then f",
    ),
    (
        "mojo run g --threads f --script=s",
        "run s at once then g then f",
    ),
    (
        "mojo run --threads --order 7 --script s g -- f",
        "run s at once then g then f",
    ),
    ("mojo print -- -f", "print -f"),
    ("mojo check g f g", "check then g then f then g"),
    ("mojo check g -- f g", "check then g then f then g"),
    ("mojo compat g f", "compat g then f"),
    ("mojo compat -- g f", "compat g then f"),
    (
        "mojo encode --method t.A.Add --value v f g",
        "encode v as request of t.A.Add then f then g",
    ),
    (
        "mojo encode --value=v f --method=t.A.Add g",
        "encode v as request of t.A.Add then f then g",
    ),
    (
        "mojo encode --method t.A.Add --value v -- f g",
        "encode v as request of t.A.Add then f then g",
    ),
    (
        "mojo encode --method t.A.Add --response --value v f",
        "encode v as response of t.A.Add then f",
    ),
    (
        "mojo encode f --value v --method t.A.Add --response",
        "encode v as response of t.A.Add then f",
    ),
    (
        "mojo decode --interface t.A --handles 64 --message m f g",
        "decode m as request of t.A with 64 then f then g",
    ),
    (
        "mojo decode f --message=m --handles=64 --interface=t.A g",
        "decode m as request of t.A with 64 then f then g",
    ),
    (
        "mojo decode --interface t.A --handles 64 --message m -- f g",
        "decode m as request of t.A with 64 then f then g",
    ),
    (
        "mojo decode --interface t.A --response --handles 0 --message m f",
        "decode m as response of t.A with 0 then f",
    ),
    (
        "mojo decode f --response --message m --handles=0 --interface t.A",
        "decode m as response of t.A with 0 then f",
    ),
    (
        "mojo load --seed 18446744073709551615 --messages 1000000",
        "load 1000000 by 18446744073709551615",
    ),
    (
        "mojo load --messages=1000000 --seed=18446744073709551615",
        "load 1000000 by 18446744073709551615",
    ),
    ("mojo load --seed 0 --messages 1", "load 1 by 0"),
    (
        "mojo audit --script s --history h f g",
        "audit h by s then f then g",
    ),
    (
        "mojo audit f --history=h --script=s g",
        "audit h by s then f then g",
    ),
    (
        "mojo audit --history h --script s -- f g",
        "audit h by s then f then g",
    ),
];

/// Lines that are none.
const OTHERS: [&str; 64] = [
    "mojo",
    "mojo walk f",
    "mojo run f",
    "mojo run --scr s f",
    "mojo run --script -- f",
    "mojo run --script s --script s f",
    "mojo run --script s --order 1 --order 1 f",
    "mojo run --script s f --order",
    "mojo run --script s --order= f",
    "mojo run --script s --order 07 f",
    "mojo run --script s --order +7 f",
    "mojo run --script s --order -1 f",
    "mojo run --script s --order=-1 f",
    "mojo run --script s --order 0x7 f",
    "mojo run --script s --order 18446744073709551616 f",
    "mojo run --script s --threads --threads f",
    "mojo run --script s --threads=true f",
    "mojo run --script s --threads --order 07 f",
    "mojo run --script s --threads",
    "mojo print f f",
    "mojo print --threads f",
    "mojo print --script s f",
    "mojo check",
    "mojo check --",
    "mojo check --script s f",
    "mojo encode --method t.A.Add f",
    "mojo encode --method t.A.Add --value v",
    "mojo encode --method t.A.Add --method t.A.Add --value v f",
    "mojo encode --method t.A.Add --response --response --value v f",
    "mojo encode --method t.A.Add --response=true --value v f",
    "mojo decode --interface t.A --message m f",
    "mojo decode --interface t.A --handles 1 --message m",
    "mojo decode --interface t.A --message m f --handles",
    "mojo decode --interface t.A --message m f --handles=",
    "mojo decode --interface t.A --message m f --handles 65",
    "mojo decode --interface t.A --message m f --handles 07",
    "mojo decode --interface t.A --message m f --handles +7",
    "mojo decode --interface t.A --message m f --handles -1",
    "mojo decode --interface t.A --message m f --handles=-1",
    "mojo decode --interface t.A --message m f --handles 257",
    "mojo decode --interface t.A --message m f --handles x",
    "mojo load",
    "mojo load --seed 0",
    "mojo load --messages 1",
    "mojo load --seed 0 --messages 1 f",
    "mojo load --seed 0 --messages 1 --seed 0",
    "mojo load --seed 0 --messages 0",
    "mojo load --seed 0 --messages 1000001",
    "mojo load --seed 0 --messages 01",
    "mojo load --seed 0 --messages +1",
    "mojo load --seed 0 --messages x",
    "mojo load --seed 0 --messages=",
    "mojo load --seed 00 --messages 1",
    "mojo load --seed -1 --messages 1",
    "mojo load --seed 18446744073709551616 --messages 1",
    "mojo audit --script s f",
    "mojo audit --history h f",
    "mojo audit --script s --history h",
    "mojo audit --script s --history h --history h f",
    "mojo audit --script s --history h --order 1 f",
    "mojo compat f",
    "mojo compat f g h",
    "mojo compat f --new g",
    "mojo --version",
];

/// The line that the names of files end.
fn with_files(mut line: String, files: &[&str]) -> Result<String, AllocError> {
    for file in files {
        line.push_str(" then ")?;
        line.push_str(file)?;
    }
    Ok(line)
}

/// The word for a side.
fn side_word(side: Side) -> &'static str {
    match side {
        Side::Request => "request",
        Side::Response => "response",
    }
}

/// What the command asks for.
fn command_text(alloc: Global, command: Command<'_>) -> Result<String, AllocError> {
    match command {
        Command::Run {
            script,
            order,
            files,
        } => with_files(
            format!(in alloc; "run {script} by {order}")?,
            files.as_slice(),
        ),
        Command::Print { file } => format!(in alloc; "print {file}"),
        Command::Check { files } => {
            with_files(String::from_str(alloc, "check")?, files.as_slice())
        }
        Command::Encode {
            method,
            side,
            value,
            files,
        } => {
            let side = side_word(side);
            let line = format!(in alloc; "encode {value} as {side} of {method}")?;
            with_files(line, files.as_slice())
        }
        Command::Decode {
            interface,
            side,
            handles,
            message,
            files,
        } => {
            let side = side_word(side);
            let line = format!(in alloc;
                "decode {message} as {side} of {interface} with {handles}"
            )?;
            with_files(line, files.as_slice())
        }
        Command::Load { seed, messages } => {
            let count = messages.count;
            format!(in alloc; "load {count} by {seed}")
        }
        Command::Audit {
            script,
            history,
            files,
        } => with_files(
            format!(in alloc; "audit {history} by {script}")?,
            files.as_slice(),
        ),
        Command::Compat { old, new } => format!(in alloc; "compat {old} then {new}"),
    }
}

/// The command in the words of the line, or the text for a wrong use.
fn answer(alloc: Global, line: &str) -> Result<String, AllocError> {
    let mut words = Vec::new(alloc);
    for word in line.split(' ') {
        words.push(String::from_str(alloc, word)?)?;
    }
    match read_words(alloc, words.as_slice()) {
        Ok(Words::AtOnce(run)) => {
            let script = run.script;
            with_files(
                format!(in alloc; "run {script} at once")?,
                run.files.as_slice(),
            )
        }
        Ok(Words::Alone(command)) => command_text(alloc, command),
        Err(WordsError::WrongUse(text)) => Ok(text),
        Err(WordsError::Memory) => Err(AllocError),
    }
}

#[test]
fn each_spelling_is_taken(rt: HostRuntime) -> Result<(), Fail> {
    for (line, text) in SPELLINGS.as_slice() {
        assert_eq!(rt; answer(rt.alloc(), *line)?.as_str(), *text);
    }
    Ok(())
}

#[test]
fn other_words_are_refused(rt: HostRuntime) -> Result<(), Fail> {
    for line in OTHERS.as_slice() {
        assert!(rt; answer(rt.alloc(), *line)?.as_str().starts_with("error: "));
    }
    Ok(())
}

#[test]
fn the_texts_are_those_of_clap(rt: HostRuntime) -> Result<(), Fail> {
    for (line, text) in [
        ("mojo --help", HELP),
        ("mojo -h", HELP),
        ("mojo help", HELP),
        ("mojo run --script s", NO_FILE),
        ("mojo check", NO_FILES),
        ("mojo encode --method t.A.Add f", NO_VALUE),
        ("mojo run --script s --order 01 f", NO_ORDER),
        (
            "mojo decode --interface t.A --handles 65 --message m f",
            NO_NUMBER,
        ),
    ] {
        assert_eq!(rt; answer(rt.alloc(), line)?.as_str(), text);
    }
    Ok(())
}
