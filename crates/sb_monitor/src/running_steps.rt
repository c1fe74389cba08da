//! Steps that run for more than a second: they are logged and shown while they run.

use sb_host::{Lending, RunningStep, StepWatch};
use sb_status::RunningStepView;
use sb_words::{Log, Severity};
use std::alloc::{AllocError, Global};

/// Looks at the steps of all cells, about once a second.
#[derive(Drop)]
pub struct RunningSteps<'o, H, O> {
    pub host: H,
    pub log: &'o O,
    /// The number of the first tenant, as clients name it.
    pub first_tenant: u32,
}

impl<'o, H: Lending, O: Log> RunningSteps<'o, H, O> {
    /// Logs each step that two looks in a row see. It is logged once.
    pub(crate) fn look(&self) {
        for cell in 0..self.host.cells() {
            if let Some(watch) = self.host.watch(cell as usize) {
                self.look_at(watch);
            }
        }
    }

    /// Looks at the step of a cell.
    fn look_at(&self, watch: &StepWatch) {
        if let Some(step) = watch.look() {
            if step.seconds == 1 {
                self.log_step(&view_of(watch, &step, self.first_tenant));
            }
        }
    }

    /// Logs a step that runs.
    fn log_step(&self, step: &RunningStepView) {
        let (tenant, session, considered) = (step.tenant, step.session, step.considered);
        match &step.newest {
            Some(newest) => {
                let rule = newest.rule.as_slice().escape_ascii();
                let line = newest.line.as_slice().escape_ascii();
                self.log.write(
                    Severity::Warning,
                    &format_args!(
                        "running: {tenant}/{session}: more than a second, {considered} considerations, rule {rule}: {line}"
                    ),
                );
            }
            None => self.log.write(
                Severity::Warning,
                &format_args!("running: {tenant}/{session}: more than a second"),
            ),
        }
    }
}

/// A step as pages show it. The tenants' numbers begin at `first_tenant`.
fn view_of(watch: &StepWatch, step: &RunningStep, first_tenant: u32) -> RunningStepView {
    RunningStepView {
        tenant: u64::from(first_tenant) + u64::from(step.tenant),
        session: u64::from(step.session),
        seconds: step.seconds,
        considered: step.considered,
        newest: watch.consideration(step),
    }
}

/// The steps of a host that have run for more than a second, by their cells. Error: out of memory.
pub(crate) fn long_steps<H: Lending>(
    alloc: Global,
    host: H,
    first_tenant: u32,
) -> Result<Vec<RunningStepView>, AllocError> {
    let mut steps = Vec::new(alloc);
    for cell in 0..host.cells() {
        if let Some(step) = long_step(host, cell as usize, first_tenant) {
            steps.push(step)?;
        }
    }
    Ok(steps)
}

/// The step of a cell, if it has run for more than a second.
fn long_step<H: Lending>(host: H, cell: usize, first_tenant: u32) -> Option<RunningStepView> {
    let watch = host.watch(cell)?;
    let step = watch.running()?;
    match step.seconds {
        0 => None,
        _ => Some(view_of(watch, &step, first_tenant)),
    }
}
