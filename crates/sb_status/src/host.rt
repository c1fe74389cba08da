//! The page of a server.
ghost use Rattle.std.specs.Prelude.{IfOk};
ghost use Rattle.sb_status.specs.Pages.{IsPage};
ghost use Rattle.sb_status.specs.declared.text.Escaping.TheVariants as escaping;

use crate::activity::{
    write_refusals, write_rollbacks, write_running, write_slowest, write_sums, write_workers,
};
use crate::markup::Markup;
use crate::page::Page;
use crate::size::write_size;
use crate::text::Escaping;
use crate::view::{Activity, HostNumbers, HostView, TenantNumbers};
use std::alloc::{AllocError, Global};

const MINUTE: u64 = 60;

const HOUR: u64 = 60 * MINUTE;

const DAY: u64 = 24 * HOUR;

/// All that is shown of a server, as a page. Error: out of memory.
pub fn host_page(alloc: Global, view: HostView<'_>) -> Result<Vec<u8>, AllocError>
    ensures { IfOk result (λ page. IsPage escaping.Html page.items) }
{
    let HostView {
        host,
        activity,
        tenants,
    } = view;
    let mut page = Page::new(alloc);
    page.mark(Markup::Head)?;
    write_facts(&mut page, host, activity)?;
    write_running(&mut page, activity.running)?;
    write_tenants(&mut page, tenants)?;
    write_workers(&mut page, activity.workers)?;
    write_rollbacks(&mut page, activity.rollbacks)?;
    write_refusals(&mut page, activity.refusals)?;
    write_slowest(&mut page, activity.slowest)?;
    page.mark(Markup::Foot)?;
    page.render(alloc, Escaping::Html)
}

fn write_facts<'v>(
    page: &mut Page<'v>,
    host: HostNumbers<'v>,
    activity: Activity<'_>,
) -> Result<(), AllocError> {
    page.mark(Markup::HostTitle)?;
    page.text(host.version.as_bytes())?;
    write_uptime(page, host.uptime)?;
    if let Some(bytes) = host.memory {
        page.mark(Markup::FactMemory)?;
        write_size(page, bytes)?;
    }
    page.counts(&[
        (Markup::FactTenants, host.tenants),
        (Markup::FactCells, host.cells),
        (Markup::FactBound, host.bound),
    ])?;
    write_sums(page, activity)?;
    page.mark(Markup::FactsEnd)
}

fn write_uptime(page: &mut Page<'_>, seconds: u64) -> Result<(), AllocError> {
    page.counts(&[
        (Markup::FactUptime, seconds / DAY),
        (Markup::Days, seconds % DAY / HOUR),
        (Markup::Hours, seconds % HOUR / MINUTE),
        (Markup::Minutes, seconds % MINUTE),
    ])?;
    page.mark(Markup::Seconds)
}

fn write_tenants(page: &mut Page<'_>, tenants: &[TenantNumbers]) -> Result<(), AllocError> {
    page.mark(Markup::TenantsHead)?;
    for tenant in tenants {
        write_tenant(page, *tenant)?;
    }
    page.mark(Markup::TableEnd)
}

fn write_tenant(page: &mut Page<'_>, tenant: TenantNumbers) -> Result<(), AllocError> {
    page.count(Markup::TenantLink, tenant.tenant)?;
    page.count(Markup::LinkText, tenant.tenant)?;
    page.mark(Markup::LinkEnd)?;
    page.cells(&[tenant.steps, tenant.room])?;
    page.mark(Markup::NumberCell)?;
    write_size(page, tenant.bytes)?;
    page.cells(&[
        tenant.tables,
        tenant.rows,
        tenant.rules,
        tenant.open,
        tenant.active,
        tenant.changes,
    ])?;
    match tenant.age {
        Some(seconds) => {
            page.count(Markup::OldAge, seconds)?;
            page.mark(Markup::OldAgeEnd)?;
        }
        None => page.mark(Markup::Cell)?,
    }
    page.mark(Markup::RowEnd)
}
