//! A server, from its words to its last line.
ghost use Rattle.std.specs.Prelude.{◌≡◌, ◌<◌, ◌≤◌, IfErr, IfOk, OnOk, None, is_ok, true};
ghost use Rattle.sb_host.specs.Opening.{AreNames};
ghost use Rattle.sb_backup.specs.Outputs.{Writes};
ghost use Rattle.sb_words.specs.Requests.{IsPlain, beginning_of, text_of};
ghost use Rattle.sb_words.specs.Within.{AreServer};
ghost use Rattle.starhost.specs.Ends.{EndsEarly};
ghost use Rattle.starhost.specs.Plains.{IsPlainServer};
ghost use Rattle.starhost.specs.Totals.{TellsServer};
ghost use Rattle.sb_backup.specs.Bounds.{bound_of};

use crate::fault::ProgramFault;
use crate::server_context::ServerContext;
use crate::server_end::{OUT_OF_MEMORY, finish_served};
use crate::system::System;
use crate::terms::{Plan, plan_of};
use sb_host::{Host, Naming, Opened};
use sb_monitor::{EventLog, ServerControls, ServerSize, StopSwitch, Supervisor};
use sb_wire::Sink;
use sb_words::ServeWords;
use std::alloc::{AllocError, Global};
use std::marker::Brand;
use std::rt::Clock;

/// Serves connections over TCP on this machine, until the last one has ended. Error: the fault that ended it, or that
/// not all files were written behind it.
pub(crate) fn serve<T: System + Sync, W: Sink>(
    rt: &T,
    alloc: Global,
    words: ServeWords<'_>,
    writer: &mut W,
) -> Result<(), ProgramFault>
    requires { AreServer words.options }
    ensures ok { OnOk result (Writes W.contents writer.old writer.new
        (TellsServer (bound_of words.entry.options.hosting.run) words.entry.options.hosting.run.tenants)) }
    ensures err { IsPlain words.entry.options (beginning_of words.entry.origin) (text_of words.entry.dump_to)
        (text_of words.entry.keys) → IfErr result (EndsEarly W.refuses W.contents
        (bound_of words.entry.options.hosting.run) words.entry.options.hosting.run.tenants
        words.entry.options.first_tenant writer.old writer.new) }
{
    let plan = plan_of(words.options);
    match opened_by(alloc, plan) {
        Ok(opened) => serve_host::<Brand, T, W>(rt, alloc, opened, plan, words, writer),
        Err(_) => Err(OUT_OF_MEMORY),
    }
}

/// The parts of a server's host.
fn opened_by(alloc: Global, plan: Plan) -> Result<Opened, AllocError>
    requires tenants { (0 < plan.tenants) × (plan.tenants ≤ 256) × (plan.bound.considerations ≤ 1000) }
    requires cells { (0 < plan.cells) × (plan.cells ≤ 16) }
    ensures { IfOk result (λ o. (o.tenants ≡ plan.tenants) × (o.cells ≡ plan.cells) × (o.bound ≡ plan.bound)) }
{
    Opened::new(alloc, plan.tenants, plan.cells, plan.bound)
}

/// Serves a host of these parts.
fn serve_host<N: Naming + Send + Sync, T: System + Sync, W: Sink>(
    rt: &T,
    alloc: Global,
    opened: Opened,
    plan: Plan,
    words: ServeWords<'_>,
    writer: &mut W,
) -> Result<(), ProgramFault>
    requires named { AreNames N.table N.tenants N.cells N.bound N.name N.parts opened }
    requires cells { opened.cells ≡ plan.cells }
    requires bound { plan.bound.considerations ≤ 1000 }
    requires workers { (0 < plan.terms.workers) × (plan.terms.workers ≤ 16) }
    ensures ok { OnOk result (Writes W.contents writer.old writer.new (TellsServer opened.bound opened.tenants)) }
    ensures err { IsPlainServer words.entry plan → IfErr result (EndsEarly W.refuses W.contents
        opened.bound opened.tenants plan.terms.first_tenant writer.old writer.new) }
{
    let Ok(host) = Host::<N>::new(alloc, opened) else {
        return Err(OUT_OF_MEMORY);
    };
    let stop_switch = match stop_switch_of(rt, plan) {
        Ok(stop_switch) => stop_switch,
        Err(why) => return Err(why),
    };
    let Some(controls) = controls_of(rt, alloc, plan, stop_switch) else {
        return Err(OUT_OF_MEMORY);
    };
    let log = EventLog::of_server(rt, plan.log, &controls.session_board);
    let server_context = ServerContext {
        rt,
        alloc,
        host: &host,
        plan,
        words,
        log: &log,
        controls: &controls,
        supervisor: Supervisor::find(rt),
    };
    let served = match server_context.serve(writer) {
        Ok(served) => served,
        Err(why) => return Err(why),
    };
    finish_served(alloc, host, plan.terms.first_tenant, served, writer)
}

/// The stop of a server with status pages, which takes the place of its standard input.
fn stop_switch_of<T: System>(rt: &T, plan: Plan) -> Result<Option<StopSwitch>, ProgramFault>
    ensures { plan.status ≡ None → is_ok result ≡ true }
{
    if plan.status.is_none() {
        return Ok(None);
    }
    match StopSwitch::take_place(rt, plan.terms.until_input_ends) {
        Ok(stop_switch) => Ok(Some(stop_switch)),
        Err(_) => Err(ProgramFault::CannotWait),
    }
}

/// What tells the server what to do. None without memory.
fn controls_of<T: Clock>(
    rt: &T,
    alloc: Global,
    plan: Plan,
    stop_switch: Option<StopSwitch>,
) -> Option<ServerControls> {
    let size = ServerSize {
        workers: plan.terms.workers,
        first_tenant: plan.terms.first_tenant,
        tenants: plan.tenants,
        is_counted: plan.status.is_some(),
    };
    ServerControls::new(rt, alloc, size, stop_switch).ok()
}
