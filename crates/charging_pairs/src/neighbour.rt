//! An end that runs beside this process.

use crate::end::End;
use anyhow::{Context, Result};
use std::alloc::Global;
use std::env;
use std::process::{Child, Command, OpenProcess, Processes, Stdio};
use std::rt::Env;

/// An end that runs beside this process, and ends by itself.
#[derive(Drop)]
pub(crate) struct Neighbour<P: OpenProcess + Drop> {
    child: Child<P>,
}

impl<P: OpenProcess + Drop> Neighbour<P> {
    /// Starts this program anew as an end by the plan of this text.
    pub(crate) fn start<R: Processes<Started = P> + Env + AllocGlobal>(
        rt: &R,
        end: End,
        plan: &str,
    ) -> Result<Neighbour<P>> {
        let program = env::args(rt)?.next().context("no program")?;
        let mut command = Command::new(rt.alloc(), program)?;
        let child = command
            .arg(end.word())?
            .arg(plan)?
            .stdout(Stdio::piped())
            .spawn(rt)?;
        Ok(Neighbour { child })
    }

    /// What it printed, once it has ended.
    pub(crate) fn printed(self, alloc: Global) -> Result<String> {
        let output = self.child.wait_with_output(alloc)?;
        Ok(String::from_str(alloc, str::from_utf8(output.stdout.as_slice())?)?)
    }
}
