//! A command line asks for one of these commands, with its options.
ghost use Rattle.std.specs.Prelude.{◌≡◌, ◌≤◌, IfErr, IfOk, IfSome, None, Some};
ghost use Rattle.clap.specs.Words.{rows_of, found_of};
ghost use Rattle.sb_words.specs.Asking as spec;
ghost use Rattle.sb_words.specs.Asking.{AreAllowed, AsksBy, IsFirstUnfit, text_at};
ghost use Rattle.sb_words.specs.Requests.{beginning_of, request_of, text_of};
ghost use Rattle.sb_words.specs.Within.{AreHost, AreRun, AreServer, IsWithin};
ghost use Rattle.sb_words.specs.declared.argument.Argument.TheVariants as named;

use crate::argument::{Argument, Unfit, Verb};
use crate::fit::first_unfit;
use crate::given::{number_at, text_at};
use crate::meaning::{RENEW_POLICIES, SEVERITIES, SYNCS, meaning_of};
use crate::renew_policy::RenewPolicy;
use crate::severity::Severity;
use crate::syncs::Syncs;
use clap::ArgMatches;

/// A run over standard input: how many tenants are hosted, their consideration limit, and the budget of a
/// step, if there is one.
#[derive(Clone, Copy, Debug)]
pub struct Run {
    pub tenants: u32,
    pub bound: u32,
    pub work: Option<u32>,
}

/// A run over standard input, and the tenant whose script is written behind it.
#[derive(Clone, Copy, Debug)]
pub struct Dumping {
    pub run: Run,
    pub tenant: u32,
}

/// A host: a run's numbers, how many cells it has, and how many workers share its calls.
#[derive(Clone, Copy, Debug)]
pub struct HostOptions {
    pub run: Run,
    pub cells: u32,
    pub workers: u32,
}

/// A server: a host, the port that it listens at (0: any free one), how many connections it serves
/// (0: without end), after how many idle seconds it closes one, and one with a transaction (0: never),
/// the number of its first tenant, how many megabytes each tenant may take (0: any number), and a segment of its journal,
/// what it logs, whether it stops where its input ends, the port of its status pages (0: any free one), if it has some,
/// how many milliseconds a line takes that is logged as slow (0: none is), and which tenants it renews by itself.
#[derive(Clone, Copy, Debug)]
pub struct ServerOptions {
    pub hosting: HostOptions,
    pub port: u32,
    pub connections: u32,
    pub idle: u32,
    pub idle_transaction: u32,
    pub first_tenant: u32,
    pub tenant_memory: u32,
    pub segment: u32,
    pub log: Severity,
    pub until_input_ends: bool,
    pub status: Option<u32>,
    pub slow: u32,
    pub renew: RenewPolicy,
}

/// The folder of a server's journal, or the file of a run's, and when each of its records is brought to the disk.
#[derive(Clone, Copy, Debug)]
pub struct JournalWords<'a> {
    pub path: &'a str,
    pub syncs: Syncs,
}

/// The tenants that a run or a server begins with.
#[derive(Clone, Copy, Debug)]
pub enum Origin<'a> {
    /// They are new.
    Fresh,
    /// They are made from the files of this folder.
    Folder(&'a str),
    /// They are as this journal leaves them, and what they are answered is recorded in it.
    Journal(JournalWords<'a>),
}

/// A run: its numbers, and the tenants that it begins with.
#[derive(Clone, Copy, Debug)]
pub struct RunWords<'a> {
    pub run: Run,
    pub origin: Origin<'a>,
}

/// A server: its options, and the tenants that it begins with.
#[derive(Clone, Copy, Debug)]
pub struct ServeWords<'a> {
    pub options: ServerOptions,
    pub origin: Origin<'a>,
    /// Its tenants are written to this folder behind the last connection.
    pub dump_to: Option<&'a str>,
    /// The file of the keys that clients need.
    pub keys: Option<&'a str>,
}

/// A dump of one tenant on standard output.
#[derive(Clone, Copy, Debug)]
pub struct DumpWords<'a> {
    pub dump: Dumping,
    /// In place of that, each tenant that the input opened is written to this folder.
    pub into: Option<&'a str>,
}

/// A journal of so many tenants that is written anew.
#[derive(Clone, Copy, Debug)]
pub struct CompactWords<'a> {
    pub run: Run,
    pub old: &'a str,
    /// The path of the new one.
    pub new: &'a str,
}

/// A command with its words.
#[derive(Clone, Copy, Debug)]
pub enum Invocation<'a> {
    Run(RunWords<'a>),
    Serve(ServeWords<'a>),
    Replay(HostOptions),
    Parse,
    Dump(DumpWords<'a>),
    Compact(CompactWords<'a>),
    /// The journal in this folder is read from end to end.
    Check(&'a str),
    /// The digest of a key.
    Key,
}

/// The meaning of a command, or its first part that isn't allowed.
pub(crate) fn requested<'a>(
    verb: Verb,
    matches: &ArgMatches<'a>,
) -> Result<Invocation<'a>, Unfit<'a>>
    ensures asked { IfOk result (λ i. AsksBy verb (rows_of (found_of matches.now)) (request_of i)) }
    ensures unfit { IfErr result (IsFirstUnfit (rows_of (found_of matches.now))) }
    ensures within { IfOk result IsWithin }
{
    match first_unfit(matches) {
        Some(unfit) => Err(unfit),
        None => Ok(asked_by(matches, verb)),
    }
}

/// The meaning of a command with its options.
fn asked_by<'a>(matches: &ArgMatches<'a>, verb: Verb) -> Invocation<'a>
    requires { AreAllowed (rows_of (found_of matches.now)) }
    ensures asked { request_of result ≡ spec.asked_by verb (rows_of (found_of matches.now)) }
    ensures within { IsWithin result }
{
    match verb {
        Verb::Run => Invocation::Run(RunWords {
            run: run_of(matches),
            origin: origin_of(matches),
        }),
        Verb::Serve => Invocation::Serve(ServeWords {
            options: serving_of(matches),
            origin: origin_of(matches),
            dump_to: text_at(matches, Argument::DumpTo),
            keys: text_at(matches, Argument::Keys),
        }),
        Verb::Replay => Invocation::Replay(hosting_of(matches)),
        Verb::Parse => Invocation::Parse,
        Verb::Dump => Invocation::Dump(DumpWords {
            dump: dumping_of(matches),
            into: text_at(matches, Argument::Into),
        }),
        Verb::Compact => Invocation::Compact(CompactWords {
            run: run_of(matches),
            old: text_at(matches, Argument::Old).unwrap_or(""),
            new: text_at(matches, Argument::New).unwrap_or(""),
        }),
        Verb::Journal => Invocation::Check(text_at(matches, Argument::Folder).unwrap_or("")),
        Verb::Key => Invocation::Key,
    }
}

/// The tenants that a run or a server begins with.
fn origin_of<'a>(matches: &ArgMatches<'a>) -> Origin<'a>
    ensures { beginning_of result ≡ spec.begins_in (rows_of (found_of matches.now)) }
{
    if let Some(folder) = text_at(matches, Argument::Load) {
        return Origin::Folder(folder);
    }
    match text_at(matches, Argument::Journal) {
        Some(path) => Origin::Journal(JournalWords {
            path,
            syncs: syncs_in(text_at(matches, Argument::Sync)),
        }),
        None => Origin::Fresh,
    }
}

fn run_of(matches: &ArgMatches<'_>) -> Run
    requires { AreAllowed (rows_of (found_of matches.now)) }
    ensures is { result ≡ spec.run_in (rows_of (found_of matches.now)) }
    ensures within { AreRun result }
{
    Run {
        tenants: number_at(matches, Argument::Tenants),
        bound: number_at(matches, Argument::Bound),
        work: work_at(matches),
    }
}

/// The budget of a step, if there is to be one.
fn work_at(matches: &ArgMatches<'_>) -> Option<u32>
    requires { AreAllowed (rows_of (found_of matches.now)) }
    ensures { result ≡ spec.work_in (rows_of (found_of matches.now)) }
{
    match text_at(matches, Argument::StepWork) {
        Some(_) => Some(number_at(matches, Argument::StepWork)),
        None => None,
    }
}

fn dumping_of(matches: &ArgMatches<'_>) -> Dumping
    requires { AreAllowed (rows_of (found_of matches.now)) }
    ensures is { result ≡ spec.dumping_in (rows_of (found_of matches.now)) }
    ensures run { AreRun result.run }
    ensures tenant { result.tenant ≤ 255 }
{
    Dumping {
        run: run_of(matches),
        tenant: number_at(matches, Argument::Tenant),
    }
}

fn hosting_of(matches: &ArgMatches<'_>) -> HostOptions
    requires { AreAllowed (rows_of (found_of matches.now)) }
    ensures is { result ≡ spec.hosting_in (rows_of (found_of matches.now)) }
    ensures within { AreHost result }
{
    HostOptions {
        run: run_of(matches),
        cells: number_at(matches, Argument::Cells),
        workers: number_at(matches, Argument::Workers),
    }
}

fn serving_of(matches: &ArgMatches<'_>) -> ServerOptions
    requires { AreAllowed (rows_of (found_of matches.now)) }
    ensures is { result ≡ spec.serving_in (rows_of (found_of matches.now)) }
    ensures within { AreServer result }
{
    let hosting = hosting_of(matches);
    ServerOptions {
        hosting,
        port: number_at(matches, Argument::Port),
        connections: number_at(matches, Argument::Connections),
        idle: number_at(matches, Argument::Idle),
        idle_transaction: number_at(matches, Argument::IdleTransaction),
        first_tenant: number_at(matches, Argument::FirstTenant),
        tenant_memory: number_at(matches, Argument::TenantMemory),
        segment: number_at(matches, Argument::Segment),
        log: severity_at(matches),
        until_input_ends: text_at(matches, Argument::UntilInputEnds).is_some(),
        status: status_at(matches),
        slow: number_at(matches, Argument::Slow),
        renew: renew_of(matches),
    }
}

/// The port of the status pages, if there are to be some.
fn status_at(matches: &ArgMatches<'_>) -> Option<u32>
    requires { AreAllowed (rows_of (found_of matches.now)) }
    ensures is { result ≡ spec.status_in (rows_of (found_of matches.now)) }
    ensures within { IfSome result (λ port. port ≤ 65535) }
{
    match text_at(matches, Argument::Status) {
        Some(_) => Some(number_at(matches, Argument::Status)),
        None => None,
    }
}

/// The lines of a server's log that are wanted.
fn severity_at(matches: &ArgMatches<'_>) -> Severity
    ensures { result ≡ spec.severity_in (text_at (rows_of (found_of matches.now)) named.Log) }
{
    match text_at(matches, Argument::Log) {
        Some(word) => meaning_of(word, &SEVERITIES).unwrap_or(Severity::Info),
        None => Severity::Info,
    }
}

/// The tenants that a server renews by itself.
fn renew_of(matches: &ArgMatches<'_>) -> RenewPolicy
    ensures { result ≡ spec.renew_in (rows_of (found_of matches.now)) }
{
    let usual = match text_at(matches, Argument::Journal) {
        Some(_) => RenewPolicy::Auto,
        None => RenewPolicy::Never,
    };
    match text_at(matches, Argument::Renew) {
        Some(word) => meaning_of(word, &RENEW_POLICIES).unwrap_or(usual),
        None => usual,
    }
}

/// The time at which a journal's records are brought to the disk.
fn syncs_in(word: Option<&str>) -> Syncs
    ensures { result ≡ spec.syncs_in (text_of word.entry) }
{
    match word {
        Some(word) => meaning_of(word, &SYNCS).unwrap_or(Syncs::Always),
        None => Syncs::Always,
    }
}
