//! The texts of `--help` and `--version`.

use crate::argument::{Argument, Verb};

pub const VERSION: &str = "starhost 0.1\n";

/// The head of the program's help.
pub(crate) const ABOUT: &str = "\
starhost is a server for active databases. Without a command it does what `run` does.

A line of `run` and `replay` is `<tenant> <session> <command>`, and each line of its reply
begins with the same two numbers. The first line of a connection to `serve` is
`<tenant> <session>`, each further one is a command, and replies have no numbers.";

/// The end of the program's help.
pub(crate) const EXAMPLES: &str = "\
Examples:
  printf '0 0 open\\n0 0 create table t (a int)\\n0 0 end\\n' | starhost
  starhost --tenants 2 --bound 10 < lines.txt > replies.txt
  starhost replay --workers 8 < lines.txt > replies.txt
  starhost dump --into folder < lines.txt
  starhost serve --port 7411 &
  printf '0 0\\ncreate table t (a int)\\n' | nc -N 127.0.0.1 7411
  echo 'select * from' | starhost parse

`starhost <COMMAND> --help` has the options of a command. A command ends with status 0; with 1
and a line `fault: ..` on standard error where it failed; words that aren't allowed are
refused with status 2. docs/COMMANDS.md has all commands.";

impl Verb {
    /// The command's work, in a sentence.
    pub(crate) fn about<'a>(self) -> &'a str {
        match self {
            Verb::Run => "Answer the lines of standard input, each before more input is read",
            Verb::Serve => "Serve connections on 127.0.0.1, each of them a session",
            Verb::Replay => "Call the sessions of all lines of standard input on several threads",
            Verb::Parse => {
                "Tell of each line of standard input whether it is a command:\n`ok`, `syntax <place>` (the byte where it stops being one) or `too long`"
            }
            Verb::Dump => {
                "Answer the lines of standard input as `run` does, and write, in place\nof the replies, the lines that make a tenant again"
            }
            Verb::Compact => "Write the journal OLD anew, as short as it can be, to NEW",
            Verb::Journal => "Read the journal in FOLDER from end to end, and tell what is there",
            Verb::Key => "Write the digest of the key on standard input, as a file of keys has it",
        }
    }
}

impl Argument {
    /// The meaning of a part, in a sentence.
    pub(crate) fn help<'a>(self) -> &'a str {
        match self {
            Argument::Old => "The journal",
            Argument::New => "The path of the new one, where nothing is",
            Argument::Action => "check: each digest is compared, and nothing is changed",
            Argument::Folder => "The folder of its segments",
            Argument::Tenants => "Host the tenants 0 to N - 1: 1 to 256 [default: 16]",
            Argument::Bound => {
                "The most rules that are considered at one assertion point:\n1 to 1000 [default: 1000]"
            }
            Argument::StepWork => {
                "The most units of work of one step: 1 to 4294967295\n[default: any number]"
            }
            Argument::Tenant => "The tenant that is written: 0 to 255 [default: 0]",
            Argument::Into => {
                "Write each tenant N that was opened to FOLDER/N.lines,\nand nothing on standard output"
            }
            Argument::Cells => {
                "Groups of tenants that may wait for each other: tenant t\nis in group t modulo N; 1 to 16 [default: 4]"
            }
            Argument::Workers => {
                "Threads: 1 to 16. In `serve` each has its share of the\ngroups [default: 4]"
            }
            Argument::Port => "The port; 0 is any free one [default: 0]",
            Argument::Connections => {
                "Stop behind so many connections: at most 1000000; 0 is\nnever [default: 0]"
            }
            Argument::Idle => {
                "Close a connection that has sent no whole line for so\nlong: at most 86400; 0 is never [default: 0]"
            }
            Argument::IdleTransaction => {
                "Close a connection that has a transaction open and has\nsent no whole line for so long [default: 0]"
            }
            Argument::FirstTenant => {
                "The tenants' numbers begin at N: at most 999999000\n[default: 0]"
            }
            Argument::TenantMemory => {
                "What a tenant's trail, rows and transactions may take:\nat most 1048576; 0 is as much as there is [default: 0]"
            }
            Argument::Segment => {
                "The journal goes on in a new file where one has so much:\nat most 65536 [default: 64]"
            }
            Argument::Load => {
                "Play the lines of the files FOLDER/N.lines first, each\nas the first session of tenant N; a tenant without a\nfile is empty"
            }
            Argument::DumpTo => {
                "Behind the last connection, write each tenant N that\nwas ever opened to FOLDER/N.lines, by the lines that\nmake it again"
            }
            Argument::Journal => {
                "Write each line to PATH before its reply binds, and play\nPATH at the start: a server's is a folder, a run's is a\nfile; not with --load"
            }
            Argument::Sync => {
                "When a record is on the disk. always: before its reply;\nsecond: a second behind it, at most, and in `run` at its\nend; never: when the system puts it there\n[default: always]"
            }
            Argument::Renew => {
                "auto: a tenant whose trail or memory is nearly full is\nrenewed while its connections stay open; never: none is\nthat isn't asked for at --status\n[default: auto with --journal, or else never]"
            }
            Argument::Keys => {
                "A first line has a key behind its numbers, whose digest\nstands in FILE for its tenant; FILE is read again where\nit changes"
            }
            Argument::Status => {
                "Pages for a browser and numbers for Prometheus at this\nport; 0 is any free one"
            }
            Argument::Log => {
                "What is logged on standard error: error, warning or\ninfo, which is all [default: info]"
            }
            Argument::Slow => {
                "Log a line that took so long: at most 86400000; 0 logs\nnone [default: 1000]"
            }
            Argument::UntilInputEnds => "Stop where standard input ends",
        }
    }

    /// The name of its value.
    pub(crate) fn value_name<'a>(self) -> &'a str {
        match self {
            Argument::Old => "OLD",
            Argument::New => "NEW",
            Argument::Action => "ACTION",
            Argument::Folder | Argument::Into | Argument::Load | Argument::DumpTo => "FOLDER",
            Argument::Journal => "PATH",
            Argument::Keys => "FILE",
            Argument::Idle | Argument::IdleTransaction => "SECONDS",
            Argument::TenantMemory | Argument::Segment => "MB",
            Argument::Sync | Argument::Renew => "WORD",
            Argument::Log => "LEVEL",
            Argument::Slow => "MILLISECONDS",
            _ => "N",
        }
    }

    /// The group in which help shows an option.
    pub(crate) fn heading<'a>(self) -> &'a str {
        match self {
            Argument::Port
            | Argument::Connections
            | Argument::Idle
            | Argument::IdleTransaction
            | Argument::Keys
            | Argument::UntilInputEnds => "Clients",
            Argument::Load
            | Argument::DumpTo
            | Argument::Journal
            | Argument::Sync
            | Argument::Segment
            | Argument::Renew => "What survives",
            Argument::Tenant | Argument::Into => "What is written",
            Argument::Status | Argument::Log | Argument::Slow => "What is told",
            _ => "Tenants",
        }
    }
}
