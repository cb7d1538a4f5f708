//! The parser of the words: the subcommands, their arguments and their helps.
ghost use Rattle.std.specs.Prelude.{◌≡◌, false, IfOk};
ghost use Rattle.clap.specs.Words.{app_of, rule_of, with_subcommand};
ghost use Rattle.clap.specs.declared.builder.command.Command.TheViews.{out-Command};
ghost use Rattle.desk_words.specs.Parser.{app_told, named_rule, rule_told, with_rules, with_subcommands};
ghost use Rattle.desk_words.specs.Words.{bare_app, desk_app};

use crate::helps::{
    CHECK, DROP, EXPLAIN, HOLDINGS, ISIN, JOURNAL, MIGRATE, PLAY, PROGRAM, READ, REPORT, SERVE,
    SUMS, VERSION,
};
use clap::builder::ValueParser;
use clap::{Arg, ArgAction, Command};
use std::alloc::{AllocError, Global};

/// How an argument is given.
#[derive(Clone, Copy)]
pub enum Form {
    /// By its place
    Place,
    /// By its place, any number of times
    Places,
    /// Behind its name, as an option
    Named,
    /// By its name alone
    Flag,
}

/// An argument.
#[derive(Clone, Copy)]
pub struct Argument<'a> {
    /// By which its value is read back; an option's own name too
    name: &'a str,
    form: Form,
    is_needed: bool,
    /// What help calls its value
    value: &'a str,
    /// What help says of it
    help: &'a str,
    /// Of a number the least and the greatest
    range: Option<(i64, i64)>,
}

/// A subcommand.
#[derive(Clone, Copy)]
pub struct Subcommand<'a> {
    name: &'a str,
    /// What help says of it, in front
    about: &'a str,
    /// And behind
    after: &'a str,
    arguments: &'a [Argument<'a>],
}

/// The subcommands, in the order of the help.
const SUBCOMMANDS: [Subcommand<'static>; 12] = [
    Subcommand {
        name: "isin",
        about: "Checks the identification number of a security",
        after: ISIN,
        arguments: &[Argument {
            name: "code",
            form: Form::Place,
            is_needed: true,
            value: "CODE",
            help: "The number, as US0378331005",
            range: None,
        }],
    },
    Subcommand {
        name: "read",
        about: "Reads a settlement instruction, block 4, from standard input",
        after: READ,
        arguments: &[Argument {
            name: "mt",
            form: Form::Place,
            is_needed: true,
            value: "MT",
            help: "The type of the message, 540 to 543",
            range: Some((540, 543)),
        }],
    },
    Subcommand {
        name: "play",
        about: "Plays a script of requests from standard input on the desk of a file, or one in memory (the default)",
        after: PLAY,
        arguments: &[MADE, DRY],
    },
    Subcommand {
        name: "check",
        about: "Plays a script as play does, and tells what is refused in it, and why",
        after: CHECK,
        arguments: &[JSON, KEPT],
    },
    Subcommand {
        name: "explain",
        about: "Tells what a refusal or a fault means, and what to do about it",
        after: EXPLAIN,
        arguments: &[
            Argument {
                name: "word",
                form: Form::Place,
                is_needed: false,
                value: "WORD",
                help: "The words of the answer, as `refused 7 19A`; without them all numbers are told",
                range: None,
            },
            Argument {
                name: "second",
                form: Form::Place,
                is_needed: false,
                value: "WORD",
                help: "The second of them",
                range: None,
            },
            Argument {
                name: "third",
                form: Form::Place,
                is_needed: false,
                value: "WORD",
                help: "The third",
                range: None,
            },
        ],
    },
    Subcommand {
        name: "serve",
        about: "Serves requests over HTTP on 127.0.0.1, one connection after another, on the desk of a file, or one in memory",
        after: SERVE,
        arguments: &[
            MADE,
            Argument {
                name: "port",
                form: Form::Named,
                is_needed: true,
                value: "N",
                help: "The port, 1 to 65535",
                range: Some((1, 65_535)),
            },
            Argument {
                name: "count",
                form: Form::Named,
                is_needed: true,
                value: "N",
                help: "How many connections are served, 1 to 1000000",
                range: Some((1, 1_000_000)),
            },
        ],
    },
    Subcommand {
        name: "holdings",
        about: "Prints what a participant's account holds, by the desk of a file",
        after: HOLDINGS,
        arguments: &[
            NEEDED,
            Argument {
                name: "bic",
                form: Form::Place,
                is_needed: true,
                value: "BIC",
                help: "The participant, as ALPHDEFF",
                range: None,
            },
            Argument {
                name: "account",
                form: Form::Place,
                is_needed: true,
                value: "ACCOUNT",
                help: "Its account, as A-1",
                range: None,
            },
        ],
    },
    Subcommand {
        name: "sums",
        about: "Prints the totals of all accounts and participants, by the desk of a file",
        after: SUMS,
        arguments: &[NEEDED],
    },
    Subcommand {
        name: "report",
        about: "Tells what stands at this moment, by the desk of a file, or by a script from standard input",
        after: REPORT,
        arguments: &[
            Argument {
                name: "part",
                form: Form::Places,
                is_needed: false,
                value: "PART",
                help: "What is told: pending, unmatched, accounts, cash or sums; without it all of them",
                range: None,
            },
            JSON,
            SHOWN,
        ],
    },
    Subcommand {
        name: "journal",
        about: "Tells what was accepted, entry by entry, and how it fares, by the desk of a file, or by a script from standard input",
        after: JOURNAL,
        arguments: &[
            Argument {
                name: "from",
                form: Form::Named,
                is_needed: false,
                value: "N",
                help: "The number of the entry to begin with; without it the first",
                range: Some((1, 999_999_999)),
            },
            JSON,
            SHOWN,
        ],
    },
    Subcommand {
        name: "drop",
        about: "Takes the files of a folder on the desk of a file, and writes the answers into another folder",
        after: DROP,
        arguments: &[
            Argument {
                name: "db",
                form: Form::Named,
                is_needed: true,
                value: "FILE",
                help: "The desk's file; where there is none it is made",
                range: None,
            },
            Argument {
                name: "in",
                form: Form::Named,
                is_needed: true,
                value: "DIR",
                help: "The folder of the files",
                range: None,
            },
            Argument {
                name: "out",
                form: Form::Named,
                is_needed: true,
                value: "DIR",
                help: "The folder of the answers, which is there",
                range: None,
            },
        ],
    },
    Subcommand {
        name: "migrate",
        about: "Brings the desk of a file of an earlier version over into a new file",
        after: MIGRATE,
        arguments: &[
            Argument {
                name: "old",
                form: Form::Place,
                is_needed: true,
                value: "OLD",
                help: "The file of version 1 or 2, which stays as it is",
                range: None,
            },
            Argument {
                name: "new",
                form: Form::Place,
                is_needed: true,
                value: "NEW",
                help: "The desk's new file, where there is none",
                range: None,
            },
        ],
    },
];

/// The file of a desk: one that is made, or one in memory where none is named
const MADE: Argument<'static> = Argument {
    name: "db",
    form: Form::Named,
    is_needed: false,
    value: "FILE",
    help: "The desk's file; where there is none it is made",
    range: None,
};

/// One that is there
const NEEDED: Argument<'static> = Argument {
    name: "db",
    form: Form::Named,
    is_needed: true,
    value: "FILE",
    help: "The desk's file, which is there",
    range: None,
};

/// One that is there, or a script where none is named
const SHOWN: Argument<'static> = Argument {
    name: "db",
    form: Form::Named,
    is_needed: false,
    value: "FILE",
    help: "The desk's file, which is there; without it a script is played",
    range: None,
};

/// One that is there and stays, or a desk in memory where none is named
const KEPT: Argument<'static> = Argument {
    name: "db",
    form: Form::Named,
    is_needed: false,
    value: "FILE",
    help: "The desk's file, which is there and stays as it is; without it a desk in memory",
    range: None,
};

/// Of a play of which nothing is kept
const DRY: Argument<'static> = Argument {
    name: "dry-run",
    form: Form::Flag,
    is_needed: false,
    value: "",
    help: "Keep nothing: the file stays as it is",
    range: None,
};

const JSON: Argument<'static> = Argument {
    name: "json",
    form: Form::Flag,
    is_needed: false,
    value: "",
    help: "As JSON, and not as text",
    range: None,
};

/// The program with its subcommands.
pub fn desk<'a>(alloc: Global) -> Result<Command<'a>, AllocError>
    ensures { IfOk result (λ command. app_of command ≡ desk_app) }
{
    with_subcommands(alloc, bare(alloc), &SUBCOMMANDS)
}

/// The program, without its subcommands.
fn bare<'a>(alloc: Global) -> Command<'a>
    ensures { app_of result ≡ bare_app }
{
    Command::new(alloc, "desk")
        .about("The settlement desk of a small securities depository")
        .after_help(PROGRAM)
        .version(VERSION)
}

/// With subcommands more.
fn with_subcommands<'a>(
    alloc: Global,
    command: Command<'a>,
    subcommands: &[Subcommand<'a>],
) -> Result<Command<'a>, AllocError>
    ensures { IfOk result (λ added. app_of added ≡ with_subcommands (app_of command.entry) subcommands.now) }
{
    match subcommands {
        [] => Ok(command),
        [first, others @ ..] => {
            let command = with_subcommand(alloc, command, first)?;
            with_subcommands(alloc, command, others)
        }
    }
}

/// With a subcommand more.
fn with_subcommand<'a>(
    alloc: Global,
    command: Command<'a>,
    told: &Subcommand<'a>,
) -> Result<Command<'a>, AllocError>
    ensures { IfOk result (λ added. app_of added ≡ with_subcommand (app_of command.entry) (app_told told.now).top) }
{
    command.subcommand(command_of(alloc, told)?)
}

/// A subcommand.
fn command_of<'a>(alloc: Global, told: &Subcommand<'a>) -> Result<Command<'a>, AllocError>
    ensures app { IfOk result (λ command. app_of command ≡ app_told told.now) }
    ensures local { IfOk result (λ command. (out-Command command).has_globals ≡ false) }
{
    let command = Command::new(alloc, told.name)
        .about(told.about)
        .after_help(told.after);
    with_arguments(alloc, command, told.arguments)
}

/// With arguments more.
fn with_arguments<'a>(
    alloc: Global,
    command: Command<'a>,
    arguments: &[Argument<'a>],
) -> Result<Command<'a>, AllocError>
    ensures app { IfOk result (λ added. app_of added ≡ with_rules (app_of command.entry) arguments.now) }
    ensures local { (out-Command command.entry).has_globals ≡ false → IfOk result (λ added. (out-Command added).has_globals ≡ false) }
{
    match arguments {
        [] => Ok(command),
        [first, others @ ..] => {
            let command = command.arg(arg_of(alloc, first))?;
            with_arguments(alloc, command, others)
        }
    }
}

/// An argument.
fn arg_of<'a>(alloc: Global, told: &Argument<'a>) -> Arg<'a>
    ensures rule { rule_of result ≡ rule_told told.now }
    ensures local { result.global ≡ false }
{
    let arg = named(alloc, told.name, told.form, told.value)
        .help(told.help)
        .required(told.is_needed);
    match told.range {
        Some((least, most)) => arg.value_parser(ValueParser::Signed(least, most)),
        None => arg,
    }
}

/// An argument of a name, which is given so.
fn named<'a>(alloc: Global, name: &'a str, form: Form, value: &'a str) -> Arg<'a>
    ensures rule { rule_of result ≡ named_rule form name.entry.now }
    ensures local { result.global ≡ false }
{
    let arg = Arg::new(alloc, name);
    match form {
        Form::Place => arg.value_name(value),
        Form::Places => arg.value_name(value).action(ArgAction::Append),
        Form::Named => arg.value_name(value).long(name),
        Form::Flag => arg.long(name).action(ArgAction::SetTrue),
    }
}
