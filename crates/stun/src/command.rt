//! The command line, by `clap`.

use clap::{Arg, ArgAction, Command};
use std::alloc::{AllocError, Global};

/// The version of the program, which is that of the library.
const VERSION: &str = "0.1.0";

/// What follows the help of each command.
const STATUSES: &str = "Exit status: 0 for what was asked for; 1 for a refusal or a negative \
answer (no message, a malformed or an invalid one, an error response, a discarded one); 2 for wrong \
usage; 3 if reading, writing or an allocation failed.";

/// How an argument depends on another one.
#[derive(Clone, Copy)]
enum Bond<'a> {
    /// Not at all.
    Free,
    /// It needs the other.
    Needs(&'a str),
    /// It excludes the other.
    Excludes(&'a str),
}

/// Adds an argument to a command.
fn with_arg<'a>(
    command: Command<'a>,
    arg: Arg<'a>,
    bond: Bond<'a>,
) -> Result<Command<'a>, AllocError> {
    match bond {
        Bond::Free => command.arg(arg),
        Bond::Needs(other) => command.arg(arg.requires_arg(other)?),
        Bond::Excludes(other) => command.arg(arg.conflicts_with(other)?),
    }
}

/// Adds a flag to a command.
fn with_flag<'a>(
    alloc: Global,
    command: Command<'a>,
    name: &'a str,
    bond: Bond<'a>,
    help: &'a str,
) -> Result<Command<'a>, AllocError> {
    let flag = Arg::new(alloc, name)
        .long(name)
        .action(ArgAction::SetTrue)
        .help(help);
    with_arg(command, flag, bond)
}

/// Adds an option with a value to a command.
fn with_option<'a>(
    alloc: Global,
    command: Command<'a>,
    name: &'a str,
    value: &'a str,
    bond: Bond<'a>,
    help: &'a str,
) -> Result<Command<'a>, AllocError> {
    let option = Arg::new(alloc, name)
        .long(name)
        .value_name(value)
        .action(ArgAction::Set)
        .help(help);
    with_arg(command, option, bond)
}

/// Adds an argument with no name to a command.
fn with_word<'a>(
    alloc: Global,
    command: Command<'a>,
    name: &'a str,
    required: bool,
    help: &'a str,
) -> Result<Command<'a>, AllocError> {
    let word = Arg::new(alloc, name).required(required).help(help);
    with_arg(command, word, Bond::Free)
}

/// A command, with what its help begins and ends with.
fn named<'a>(alloc: Global, name: &'a str, about: &'a str) -> Command<'a> {
    Command::new(alloc, name)
        .version(VERSION)
        .about(about)
        .after_help(STATUSES)
}

/// Adds the options of credentials to a command.
fn with_credentials<'a>(alloc: Global, command: Command<'a>) -> Result<Command<'a>, AllocError> {
    let command = with_option(
        alloc,
        command,
        "password-file",
        "FILE",
        Bond::Free,
        "A file whose first line is the password; without it the variable STUN_PASSWORD is, if set",
    )?;
    with_option(
        alloc,
        command,
        "password",
        "TEXT",
        Bond::Excludes("password-file"),
        "The password; anyone on the machine can see it by ps: prefer --password-file",
    )
}

/// Adds the forms of input and output of `stun show`.
fn with_forms<'a>(alloc: Global, command: Command<'a>) -> Result<Command<'a>, AllocError> {
    let command = with_flag(
        alloc,
        command,
        "hex",
        Bond::Free,
        "The message is in hexadecimal; spaces, colons, line breaks and 0x don't count",
    )?;
    let command = with_flag(
        alloc,
        command,
        "lines",
        Bond::Excludes("hex"),
        "Each line is a message in hexadecimal, as tshark -T fields -e udp.payload prints them",
    )?;
    with_flag(
        alloc,
        command,
        "json",
        Bond::Free,
        "Print an object of JSON for each message, one in a line",
    )
}

/// `stun show`.
fn show_command<'a>(alloc: Global) -> Result<Command<'a>, AllocError> {
    let command = named(
        alloc,
        "show",
        "Shows what a message holds, and whether it is valid",
    );
    let file = "The file to read; without it standard input";
    let command = with_word(alloc, command, "FILE", false, file)?;
    let command = with_credentials(alloc, with_forms(alloc, command)?)?;
    let user = "The user name of long-term credentials";
    let command = with_option(alloc, command, "user", "NAME", Bond::Needs("realm"), user)?;
    let realm = "The realm of long-term credentials";
    with_option(alloc, command, "realm", "REALM", Bond::Needs("user"), realm)
}

/// `stun ask`.
fn ask_command<'a>(alloc: Global) -> Result<Command<'a>, AllocError> {
    let command = named(
        alloc,
        "ask",
        "Writes a binding request to standard output, signed if a user is named",
    );
    let command = with_option(
        alloc,
        command,
        "id",
        "HEX",
        Bond::Free,
        "The transaction ID, at most 24 digits; without it a random one, which nobody can predict",
    )?;
    let command = with_flag(
        alloc,
        command,
        "challenge",
        Bond::Needs("user"),
        "Continue from the 401 or 438 on standard input, by long-term credentials",
    )?;
    let command = with_credentials(alloc, command)?;
    with_option(alloc, command, "user", "NAME", Bond::Free, "The user name")
}

/// `stun reply`.
fn reply_command<'a>(alloc: Global) -> Result<Command<'a>, AllocError> {
    let command = named(
        alloc,
        "reply",
        "Reads a request from standard input, and writes the reply that a server gives",
    );
    let stream = Arg::new(alloc, "stream")
        .short('s')
        .long("stream")
        .action(ArgAction::SetTrue)
        .help("Reply to each message of a stream, as over TCP");
    let command = with_arg(command, stream, Bond::Free)?;
    let address = "The IP address that the input came from, in square brackets or not";
    let command = with_word(alloc, command, "ADDRESS", true, address)?;
    with_word(alloc, command, "PORT", true, "The port that it came from")
}

/// `stun check`.
fn check_command<'a>(alloc: Global) -> Result<Command<'a>, AllocError> {
    let command = named(
        alloc,
        "check",
        "Says what a client learns from the response to its request",
    );
    let request = "The file of the request, as stun ask wrote it";
    let command = with_word(alloc, command, "REQUEST", true, request)?;
    let response = "The file of the response; without it standard input";
    let command = with_word(alloc, command, "RESPONSE", false, response)?;
    let command = with_credentials(alloc, command)?;
    let user = "The user name, if the request has a hash of it instead";
    with_option(alloc, command, "user", "NAME", Bond::Free, user)
}

/// The whole command line.
pub fn command<'a>(alloc: Global) -> Result<Command<'a>, AllocError> {
    let command = named(
        alloc,
        "stun",
        "Shows messages of STUN, writes requests and replies, and checks responses",
    );
    let command = command
        .bin_name("stun")?
        .subcommand_required(true)
        .arg_required_else_help(true);
    let command = command.subcommand(show_command(alloc)?)?;
    let command = command.subcommand(ask_command(alloc)?)?;
    let command = command.subcommand(reply_command(alloc)?)?;
    command.subcommand(check_command(alloc)?)
}
