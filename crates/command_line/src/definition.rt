//! The commands, as `clap` reads them.

ghost use Rattle.std.specs.Prelude.{◌≡◌, IfOk, false};
ghost use Rattle.clap.specs.Words.{app_of, rule_of};
ghost use Rattle.clap.specs.declared.builder.command.Command.TheViews.{out-Command};
ghost use Rattle.command_line.specs.Definition.{long, option, free_option, flag, one_word, one_file, files, run, print, check, encode, decode};
ghost use Rattle.command_line.specs.Definition.{run_start, encode_start, decode_start, decode_middle, load, audit_start, audit, compat, tool};
ghost use Rattle.command_line.specs.Definition.{two_commands, four_commands, five_commands, six_commands, seven_commands};

use clap::{Arg, ArgAction, Command};
use std::alloc::{AllocError, Global};

/// What the exit statuses of the program say, for its help.
const STATUSES: &str =
    "Exit status: 0 all was done; 1 a file is refused, or incompatible; 2 the words are no command,
or ask for help; 3 a file could not be read; 4 standard output failed; 5 want of memory.";

/// An argument that `--name` stands for.
fn long_arg<'a>(alloc: Global, name: &'a str, help: &'a str) -> Arg<'a>
    ensures rule { rule_of result ≡ long name.entry.now }
    ensures local { result.global ≡ false }
{
    Arg::new(alloc, name).long(name).help(help)
}

/// An option that stands once, with its value.
fn option_arg<'a>(alloc: Global, name: &'a str, help: &'a str) -> Arg<'a>
    ensures rule { rule_of result ≡ option name.entry.now }
    ensures local { result.global ≡ false }
{
    long_arg(alloc, name, help)
        .required(true)
        .action(ArgAction::Set)
}

/// An option that stands once, with its value, or not at all.
fn free_option_arg<'a>(alloc: Global, name: &'a str, help: &'a str) -> Arg<'a>
    ensures rule { rule_of result ≡ free_option name.entry.now }
    ensures local { result.global ≡ false }
{
    long_arg(alloc, name, help).action(ArgAction::Set)
}

/// A flag, which stands once or not at all.
fn flag_arg<'a>(alloc: Global, name: &'a str, help: &'a str) -> Arg<'a>
    ensures rule { rule_of result ≡ flag name.entry.now }
    ensures local { result.global ≡ false }
{
    long_arg(alloc, name, help).action(ArgAction::SetTrue)
}

/// A word that stands once, by its place.
fn word_arg<'a>(alloc: Global, name: &'a str, help: &'a str) -> Arg<'a>
    ensures rule { rule_of result ≡ one_word name.entry.now }
    ensures local { result.global ≡ false }
{
    Arg::new(alloc, name)
        .required(true)
        .action(ArgAction::Set)
        .help(help)
}

/// One file.
fn file_arg<'a>(alloc: Global, help: &'a str) -> Arg<'a>
    ensures rule { rule_of result ≡ one_file }
    ensures local { result.global ≡ false }
{
    Arg::new(alloc, "FILE")
        .required(true)
        .action(ArgAction::Set)
        .help(help)
}

/// One file or more.
fn files_arg<'a>(alloc: Global, help: &'a str) -> Arg<'a>
    ensures rule { rule_of result ≡ files }
    ensures local { result.global ≡ false }
{
    Arg::new(alloc, "FILE")
        .required(true)
        .action(ArgAction::Append)
        .help(help)
}

/// `run` with its script and its order.
fn run_start_command<'a>(alloc: Global) -> Result<Command<'a>, AllocError>
    ensures app { IfOk result (λ command. app_of command ≡ run_start) }
    ensures local { IfOk result (λ command. (out-Command command).has_globals ≡ false) }
{
    Command::new(alloc, "run")
        .about("Runs a script over Mojom files, and prints its history")
        .arg(option_arg(alloc, "script", "The script"))?
        .arg(free_option_arg(
            alloc,
            "order",
            "The number that decides which sequence goes on, 0 where none is given",
        ))
}

/// `run --script SCRIPT [--order ORDER] [--threads] FILE..`.
fn run_command<'a>(alloc: Global) -> Result<Command<'a>, AllocError>
    ensures app { IfOk result (λ command. app_of command ≡ run) }
    ensures local { IfOk result (λ command. (out-Command command).has_globals ≡ false) }
{
    run_start_command(alloc)?
        .arg(flag_arg(
            alloc,
            "threads",
            "Runs each sequence in a thread of its own, whatever the order",
        ))?
        .arg(files_arg(alloc, "The Mojom files, with the script's interfaces"))
}

/// `print FILE`.
fn print_command<'a>(alloc: Global) -> Result<Command<'a>, AllocError>
    ensures app { IfOk result (λ command. app_of command ≡ print) }
    ensures local { IfOk result (λ command. (out-Command command).has_globals ≡ false) }
{
    Command::new(alloc, "print")
        .about("Prints the canonical text of a Mojom file, without its comments")
        .arg(file_arg(alloc, "The Mojom file"))
}

/// `check FILE..`.
fn check_command<'a>(alloc: Global) -> Result<Command<'a>, AllocError>
    ensures app { IfOk result (λ command. app_of command ≡ check) }
    ensures local { IfOk result (λ command. (out-Command command).has_globals ≡ false) }
{
    Command::new(alloc, "check")
        .about("Checks Mojom files, and prints their tables")
        .arg(files_arg(alloc, "The Mojom files"))
}

/// `encode` with its method and its flag.
fn encode_start_command<'a>(alloc: Global) -> Result<Command<'a>, AllocError>
    ensures app { IfOk result (λ command. app_of command ≡ encode_start) }
    ensures local { IfOk result (λ command. (out-Command command).has_globals ≡ false) }
{
    Command::new(alloc, "encode")
        .about("Encodes the text of a value, and prints the message in hexadecimal")
        .arg(option_arg(alloc, "method", "The method, by its full name"))?
        .arg(flag_arg(
            alloc,
            "response",
            "The message is the response, not the request",
        ))
}

/// `encode --method METHOD [--response] --value VALUE FILE..`.
fn encode_command<'a>(alloc: Global) -> Result<Command<'a>, AllocError>
    ensures app { IfOk result (λ command. app_of command ≡ encode) }
    ensures local { IfOk result (λ command. (out-Command command).has_globals ≡ false) }
{
    encode_start_command(alloc)?
        .arg(option_arg(alloc, "value", "The file of the value's text"))?
        .arg(files_arg(alloc, "The Mojom files, of which one has the method"))
}

/// `decode` with its interface and its flag.
fn decode_start_command<'a>(alloc: Global) -> Result<Command<'a>, AllocError>
    ensures app { IfOk result (λ command. app_of command ≡ decode_start) }
    ensures local { IfOk result (λ command. (out-Command command).has_globals ≡ false) }
{
    Command::new(alloc, "decode")
        .about("Decodes a message in hexadecimal, and prints its method, request id and value")
        .arg(option_arg(alloc, "interface", "The interface, by its full name"))?
        .arg(flag_arg(
            alloc,
            "response",
            "The message is a response, not a request",
        ))
}

/// `decode` with its options.
fn decode_middle_command<'a>(alloc: Global) -> Result<Command<'a>, AllocError>
    ensures app { IfOk result (λ command. app_of command ≡ decode_middle) }
    ensures local { IfOk result (λ command. (out-Command command).has_globals ≡ false) }
{
    decode_start_command(alloc)?
        .arg(option_arg(
            alloc,
            "handles",
            "How many handles come with it, from 0 to 64",
        ))?
        .arg(option_arg(alloc, "message", "The file of the message"))
}

/// `decode --interface INTERFACE [--response] --handles HANDLES --message MESSAGE FILE..`.
fn decode_command<'a>(alloc: Global) -> Result<Command<'a>, AllocError>
    ensures app { IfOk result (λ command. app_of command ≡ decode) }
    ensures local { IfOk result (λ command. (out-Command command).has_globals ≡ false) }
{
    decode_middle_command(alloc)?.arg(files_arg(
        alloc,
        "The Mojom files, of which one has the interface",
    ))
}

/// `load --seed SEED --messages MESSAGES`.
fn load_command<'a>(alloc: Global) -> Result<Command<'a>, AllocError>
    ensures app { IfOk result (λ command. app_of command ≡ load) }
    ensures local { IfOk result (λ command. (out-Command command).has_globals ≡ false) }
{
    Command::new(alloc, "load")
        .about("Runs calls and answers by numbers that are drawn, and counts what they did")
        .arg(option_arg(alloc, "seed", "The number that the others are drawn behind"))?
        .arg(option_arg(
            alloc,
            "messages",
            "How many messages are called, from 1 to 1000000",
        ))
}

/// `audit` with its script and its history.
fn audit_start_command<'a>(alloc: Global) -> Result<Command<'a>, AllocError>
    ensures app { IfOk result (λ command. app_of command ≡ audit_start) }
    ensures local { IfOk result (λ command. (out-Command command).has_globals ≡ false) }
{
    Command::new(alloc, "audit")
        .about("Audits the printed history of a run, and prints how many events it has")
        .arg(option_arg(alloc, "script", "The script"))?
        .arg(option_arg(alloc, "history", "The file of the history's text"))
}

/// `audit --script SCRIPT --history HISTORY FILE..`.
fn audit_command<'a>(alloc: Global) -> Result<Command<'a>, AllocError>
    ensures app { IfOk result (λ command. app_of command ≡ audit) }
    ensures local { IfOk result (λ command. (out-Command command).has_globals ≡ false) }
{
    audit_start_command(alloc)?.arg(files_arg(
        alloc,
        "The Mojom files, with the script's interfaces",
    ))
}

/// `compat OLD NEW`.
fn compat_command<'a>(alloc: Global) -> Result<Command<'a>, AllocError>
    ensures app { IfOk result (λ command. app_of command ≡ compat) }
    ensures local { IfOk result (λ command. (out-Command command).has_globals ≡ false) }
{
    Command::new(alloc, "compat")
        .about("Tells whether a newer Mojom file reads what an older one writes")
        .arg(word_arg(alloc, "OLD", "The older Mojom file"))?
        .arg(word_arg(alloc, "NEW", "The newer Mojom file"))
}

/// The program with its first two commands.
fn two_command<'a>(alloc: Global) -> Result<Command<'a>, AllocError>
    ensures app { IfOk result (λ command. app_of command ≡ two_commands) }
{
    Command::new(alloc, "mojo")
        .about("Reads Mojom files")
        .after_help(STATUSES)
        .subcommand_required(true)
        .subcommand(run_command(alloc)?)?
        .subcommand(print_command(alloc)?)
}

/// The program with its first four commands.
fn four_command<'a>(alloc: Global) -> Result<Command<'a>, AllocError>
    ensures app { IfOk result (λ command. app_of command ≡ four_commands) }
{
    two_command(alloc)?
        .subcommand(check_command(alloc)?)?
        .subcommand(encode_command(alloc)?)
}

/// The program with its first five commands.
fn five_command<'a>(alloc: Global) -> Result<Command<'a>, AllocError>
    ensures app { IfOk result (λ command. app_of command ≡ five_commands) }
{
    four_command(alloc)?.subcommand(decode_command(alloc)?)
}

/// The program with its first six commands.
fn six_command<'a>(alloc: Global) -> Result<Command<'a>, AllocError>
    ensures app { IfOk result (λ command. app_of command ≡ six_commands) }
{
    five_command(alloc)?.subcommand(load_command(alloc)?)
}

/// The program with its first seven commands.
fn seven_command<'a>(alloc: Global) -> Result<Command<'a>, AllocError>
    ensures app { IfOk result (λ command. app_of command ≡ seven_commands) }
{
    six_command(alloc)?.subcommand(audit_command(alloc)?)
}

/// The whole command line.
pub fn tool_command<'a>(alloc: Global) -> Result<Command<'a>, AllocError>
    ensures app { IfOk result (λ command. app_of command ≡ tool) }
{
    seven_command(alloc)?.subcommand(compat_command(alloc)?)
}
