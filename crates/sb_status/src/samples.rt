//! The numbers of a server and its tenants as samples of Prometheus.
ghost use Rattle.std.specs.Prelude.{IfOk};
ghost use Rattle.sb_status.specs.Pages.{IsPage};
ghost use Rattle.sb_status.specs.declared.text.Escaping.TheVariants as escaping;

use crate::counters::write_activity;
use crate::markup::Markup;
use crate::page::Page;
use crate::text::Escaping;
use crate::view::{HostNumbers, HostView, TenantNumbers};
use std::alloc::{AllocError, Global};

/// A number that each tenant has.
#[derive(Clone, Copy)]
struct Family {
    head: Markup,
    sample: Markup,
    number: u64,
}

/// How many numbers each tenant has.
const FAMILIES: usize = 12;

/// All of it as samples, in the text format 0.0.4. Error: out of memory.
pub fn metrics(alloc: Global, view: HostView<'_>) -> Result<Vec<u8>, AllocError>
    ensures { IfOk result (λ page. IsPage escaping.Label page.items) }
{
    let mut page = Page::new(alloc);
    write_host(&mut page, view.host)?;
    write_activity(&mut page, view.activity)?;
    for place in 0..FAMILIES {
        write_family(&mut page, place, view.tenants)?;
    }
    write_volume_ages(&mut page, view.tenants)?;
    page.render(alloc, Escaping::Label)
}

fn write_host<'v>(page: &mut Page<'v>, host: HostNumbers<'v>) -> Result<(), AllocError> {
    page.mark(Markup::VersionSample)?;
    page.text(host.version.as_bytes())?;
    page.mark(Markup::VersionEnd)?;
    page.count(Markup::UptimeSample, host.uptime)?;
    if let Some(bytes) = host.memory {
        page.count(Markup::MemorySample, bytes)?;
    }
    page.counts(&[
        (Markup::TenantsSample, host.tenants),
        (Markup::CellsSample, host.cells),
        (Markup::BoundSample, host.bound),
    ])?;
    match host.tenant_memory {
        Some(bytes) => page.count(Markup::MemoryLimitSample, bytes),
        None => Ok(()),
    }
}

/// Writes the samples of a family, one for each tenant.
fn write_family(
    page: &mut Page<'_>,
    place: usize,
    tenants: &[TenantNumbers],
) -> Result<(), AllocError> {
    for (index, tenant) in tenants.iter().enumerate() {
        let family = family_at(place, tenant);
        if index == 0 {
            page.mark(family.head)?;
        }
        write_sample(page, family, tenant)?;
    }
    Ok(())
}

/// Writes how old the volumes are that renewals began, if there are some.
fn write_volume_ages(page: &mut Page<'_>, tenants: &[TenantNumbers]) -> Result<(), AllocError> {
    let mut is_first = true;
    for tenant in tenants {
        if let Some(seconds) = tenant.volume_age {
            let family = made(Markup::VolumeAgeFamily, Markup::VolumeAgeSample, seconds);
            if is_first {
                page.mark(family.head)?;
            }
            is_first = false;
            write_sample(page, family, tenant)?;
        }
    }
    Ok(())
}

/// Writes the sample of a tenant.
fn write_sample(
    page: &mut Page<'_>,
    family: Family,
    tenant: &TenantNumbers,
) -> Result<(), AllocError> {
    page.count(family.sample, tenant.tenant)?;
    page.count(Markup::SampleEnd, family.number)?;
    page.mark(Markup::NewLine)
}

/// The number of a tenant at this place.
fn family_at(place: usize, tenant: &TenantNumbers) -> Family {
    match place {
        0 => made(Markup::StepsFamily, Markup::StepsSample, tenant.steps_made),
        1 => made(Markup::RoomFamily, Markup::RoomSample, tenant.room),
        2 => made(Markup::BytesFamily, Markup::BytesSample, tenant.bytes),
        3 => made(Markup::TablesFamily, Markup::TablesSample, tenant.tables),
        4 => made(Markup::RowsFamily, Markup::RowsSample, tenant.rows),
        5 => made(Markup::RulesFamily, Markup::RulesSample, tenant.rules),
        6 => made(Markup::OpenFamily, Markup::OpenSample, tenant.open),
        7 => made(Markup::ActiveFamily, Markup::ActiveSample, tenant.active),
        8 => made(Markup::ChangesFamily, Markup::ChangesSample, tenant.changes),
        9 => made(Markup::VolumeFamily, Markup::VolumeSample, tenant.volume),
        10 => made(
            Markup::TurnedAwayFamily,
            Markup::TurnedAwaySample,
            tenant.turned_away,
        ),
        _ => made(
            Markup::OldFamily,
            Markup::OldSample,
            tenant.age.unwrap_or(0),
        ),
    }
}

fn made(head: Markup, sample: Markup, number: u64) -> Family {
    Family {
        head,
        sample,
        number,
    }
}
