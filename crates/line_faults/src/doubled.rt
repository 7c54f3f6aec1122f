//! Members that stand twice in an object of a line, of which the last counts.

use crate::found::Front;
use crate::json_text::{Level, Part, Reading, Step};
use crate::located::text_at;
use crate::said::Said;
use std::alloc::{AllocError, Global};
use std::fmt;
use std::fmt::Display;

/// The most names of an object among which a later one is looked for.
const MAX_NAMES: usize = 64;

/// The member that is read of the innermost object.
#[derive(Clone, Copy)]
struct MemberRead<'a>(&'a str, &'a [Level]);

impl<'a> Display for MemberRead<'a> {
    fn fmt<W: fmt::Write>(&self, f: &mut fmt::Formatter<W>) -> fmt::Result {
        let MemberRead(text, open) = self;
        for (depth, level) in open.iter().enumerate() {
            if !level.is_object {
                write!(f, "[{}]", level.number)?;
                continue;
            }
            if depth > 0 {
                f.write_char('.')?;
            }
            write!(f, "{}", Front(text_at(text, level.name)))?;
        }
        Ok(())
    }
}

/// The names that were read of the objects that are open.
#[derive(Drop)]
struct Names {
    names: Vec<Part>,
    /// How many of them are of the objects and lists around each that is open.
    around: Vec<usize>,
}

impl Names {
    /// Notes a name of the innermost object. Returns whether it stands there before.
    fn note(&mut self, text: &str, name: Part) -> Result<bool, AllocError> {
        let first = self.around.last().copied().unwrap_or(0);
        let before = self.names.get(first..).unwrap_or(&[]);
        let wanted = text_at(text, name);
        if before.iter().any(|one| text_at(text, *one) == wanted) {
            return Ok(true);
        }
        if before.len() < MAX_NAMES {
            self.names.push(name)?;
        }
        Ok(false)
    }
}

/// The warning that the member that is read stands before too.
fn doubled_warning(alloc: Global, text: &str, open: &[Level]) -> Result<Said, AllocError> {
    let mut warning = Said::new(alloc);
    warning.push_member(&MemberRead(text, open))?;
    warning
        .text
        .push_str(": stands twice, and the last counts")?;
    Ok(warning)
}

/// Adds a warning for each member of a line that stands in its object before too.
pub(crate) fn add_doubled(
    alloc: Global,
    warnings: &mut Vec<Said>,
    text: &str,
) -> Result<(), AllocError> {
    let mut reading = Reading::new(alloc);
    let mut names = Names {
        names: Vec::new(alloc),
        around: Vec::new(alloc),
    };
    for (at, byte) in text.as_bytes().iter().enumerate() {
        match reading.read(at, *byte)? {
            Step::Opens => names.around.push(names.names.len())?,
            Step::Closes => names.names.truncate(names.around.pop().unwrap_or(0)),
            Step::Name => {
                let Some(level) = reading.open().last() else {
                    continue;
                };
                if names.note(text, level.name)? {
                    warnings.push(doubled_warning(alloc, text, reading.open())?)?;
                }
            }
            Step::Value | Step::Inside => {}
        }
    }
    Ok(())
}
