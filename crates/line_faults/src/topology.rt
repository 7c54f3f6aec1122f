//! Topologies that have not the form of one.

ghost use Rattle.std.specs.Prelude.{◌≡◌};
ghost use Rattle.line_faults.specs.Misfits.{line_site};
ghost use Rattle.line_faults.specs.inner.Meaning.{IsStill, site_of};

use crate::misfit::{Misfit, as_misfit, end_misfit, list_of, members_misfit, top_misfit};
use crate::place::Place;
use crate::said::Said;
use serde_json::Value;
use std::alloc::{AllocError, Global};

/// The values of a list in a topology; none if there is no such list.
pub(crate) fn values_of<'v>(topology: &'v Value, name: &str) -> &'v [Value] {
    list_of(topology, name).unwrap_or(&[])
}

/// The objects of a topology that have not their form, so far, and the most that are looked for.
#[derive(Drop)]
struct Misfits<'v> {
    most: usize,
    found: Vec<Misfit<'v>>,
}

impl<'v> Misfits<'v> {
    /// Adds a misfit, if there is one. Returns whether there is.
    fn add(&mut self, misfit: Option<Misfit<'v>>) -> Result<bool, AllocError> {
        let Some(misfit) = misfit else {
            return Ok(false);
        };
        if self.found.len() < self.most {
            self.found.push(misfit)?;
        }
        Ok(true)
    }

    /// Adds what is wrong with the form of a link, or else of its ends.
    fn add_link(
        &mut self,
        line: Place<'v>,
        number: usize,
        link: &'v Value,
    ) -> Result<(), AllocError> {
        if !self.add(members_misfit(line, number, link))? {
            let _ = self.add(end_misfit(line, number, "a", link))?;
            let _ = self.add(end_misfit(line, number, "b", link))?;
        }
        Ok(())
    }
}

/// Of each object of a topology that has not its form the first member that is missing or not of
/// its form: of the topology itself, or else of its ASes, and then of its links; of the first
/// objects, at most this many.
pub(crate) fn topology_misfits<'v>(
    alloc: Global,
    line: Place<'v>,
    topology: &'v Value,
    most: usize,
) -> Result<Vec<Misfit<'v>>, AllocError>
    requires { site_of line ≡ line_site }
{
    let mut misfits = Misfits {
        most,
        found: Vec::new(alloc),
    };
    if !misfits.add(top_misfit(line, topology))? {
        for (number, one) in values_of(topology, "ases").iter().enumerate() {
            let _ = misfits.add(as_misfit(line, number, one))?;
        }
        for (number, link) in values_of(topology, "links").iter().enumerate() {
            misfits.add_link(line, number, link)?;
        }
    }
    Ok(misfits.found)
}

/// Adds that a first line is an event, if it is one.
pub(crate) fn push_event_first(why: &mut Said, line: &Value) -> Result<(), AllocError>
    ensures { IsStill why.old why.new }
{
    match line.get("do") {
        Some(_) => why.text.push_str(
            "; this is an event, and the first line has to be the topology",
        ),
        None => Ok(()),
    }
}
