//! Where an object stands in a line, and the members and entries that stand in it.

ghost use Rattle.std.specs.Prelude.{◌≡◌, ◌++◌, codes, Some, OnOk};
ghost use Rattle.std.specs.Fmt.{decimal};
ghost use Rattle.line_faults.specs.Misfits.{item_site, line_site, part_site};
ghost use Rattle.line_faults.specs.inner.Meaning.{member_said, site_of};

use crate::found::Front;
use crate::located::{Inward, item_starts, start_of};
use crate::said::Said;
use std::alloc::{AllocError, Allocator, Global};
use std::fmt;

/// Where an object stands in a line: it is the line itself, an item of a list of the line, or an
/// object in one of these.
#[derive(Clone, Copy)]
pub(crate) struct Place<'a> {
    line: &'a str,
    item: Option<(&'static str, usize)>,
    part: Option<&'static str>,
}

impl<'a> Place<'a> {
    /// The line of this text itself.
    pub(crate) fn line(text: &'a str) -> Place<'a>
        ensures { site_of result ≡ line_site }
    {
        Place {
            line: text,
            item: None,
            part: None,
        }
    }

    /// The text of the line.
    pub(crate) fn text(self) -> &'a str {
        self.line
    }

    /// The item of this number in a list of the line.
    pub(crate) fn item(self, list: &'static str, number: usize) -> Place<'a>
        ensures { site_of result ≡ item_site list.now number }
    {
        Place {
            line: self.line,
            item: Some((list, number)),
            part: None,
        }
    }

    /// The object of this name in the link of a number.
    pub(crate) fn link_end(self, number: usize, name: &'static str) -> Place<'a>
        ensures { site_of result ≡ part_site (item_site (codes "links") number) name.now }
    {
        Place {
            line: self.line,
            item: Some(("links", number)),
            part: Some(name),
        }
    }

    /// The steps that lead to it from the line.
    fn steps(&self, alloc: Global) -> Result<Vec<Inward<'a>>, AllocError> {
        let mut steps = Vec::new(alloc);
        if let Some((list, number)) = self.item {
            steps.push(Inward::Member(list))?;
            steps.push(Inward::Item(number))?;
        }
        if let Some(name) = self.part {
            steps.push(Inward::Member(name))?;
        }
        Ok(steps)
    }
}

impl<'a> fmt::Display for Place<'a> {
    ghost output = { λ place. Some (site_of place).name };

    fn fmt<W: fmt::Write>(&self, f: &mut fmt::Formatter<W>) -> fmt::Result {
        match (self.item, self.part) {
            (None, _) => f.write_str("the line"),
            (Some((list, number)), None) => write!(f, "{list}[{number}]"),
            (Some((list, number)), Some(name)) => write!(f, "{list}[{number}].{name}"),
        }
    }
}

/// What stands before the names of the members of the object at a place.
#[derive(Clone, Copy)]
struct FrontOf<'a>(Place<'a>);

impl<'a> fmt::Display for FrontOf<'a> {
    ghost output = { λ front. Some (site_of front.0).front };

    fn fmt<W: fmt::Write>(&self, f: &mut fmt::Formatter<W>) -> fmt::Result {
        if self.0.item.is_none() {
            return Ok(());
        }
        write!(f, "{}.", self.0)
    }
}

/// The member of this name of the object at a place.
#[derive(Clone, Copy)]
struct MemberAt<'a>(Place<'a>, &'a str);

impl<'a> fmt::Display for MemberAt<'a> {
    ghost output = { λ member. Some ((site_of member.0).front ++ member.1.now) };

    fn fmt<W: fmt::Write>(&self, f: &mut fmt::Formatter<W>) -> fmt::Result {
        write!(f, "{}{}", FrontOf(self.0), self.1)
    }
}

/// A member of the object at a place, with the first characters of a name that may be any text.
#[derive(Clone, Copy)]
struct StrangeAt<'a>(Place<'a>, &'a str);

impl<'a> fmt::Display for StrangeAt<'a> {
    fn fmt<W: fmt::Write>(&self, f: &mut fmt::Formatter<W>) -> fmt::Result {
        write!(f, "{}{}", FrontOf(self.0), Front(self.1))
    }
}

/// An entry of the access list at a place.
#[derive(Clone, Copy)]
struct EntryAt<'a>(Place<'a>, usize);

impl<'a> fmt::Display for EntryAt<'a> {
    ghost output = { λ entry. Some ((site_of entry.0).front
        ++ (codes "acl[" ++ (decimal entry.1 ++ codes "]"))) };

    fn fmt<W: fmt::Write>(&self, f: &mut fmt::Formatter<W>) -> fmt::Result {
        write!(f, "{}acl[{}]", FrontOf(self.0), self.1)
    }
}

/// Adds the member of this name, which may be any text, of the object at a place.
pub(crate) fn push_name(why: &mut Said, place: Place<'_>, name: &str) -> Result<(), AllocError> {
    why.push_member(&StrangeAt(place, name))
}

/// Adds the object at a place, and notes at which column it is.
pub(crate) fn push_object(why: &mut Said, place: Place<'_>) -> Result<(), AllocError>
    ensures member { OnOk result (member_said why.new ≡ Some (site_of place.entry).name) }
    ensures wanted { why.new.wanted ≡ why.old.wanted }
{
    let steps = place.steps(*why.text.allocator())?;
    note_column(why, place, &steps)?;
    why.push_member(&place)
}

/// Adds the member of this name of the object at a place, and notes at which column its value is.
pub(crate) fn push_place(why: &mut Said, place: Place<'_>, name: &str) -> Result<(), AllocError>
    ensures member { OnOk result
        (member_said why.new ≡ Some ((site_of place.entry).front ++ name.now)) }
    ensures wanted { why.new.wanted ≡ why.old.wanted }
{
    let mut steps = place.steps(*why.text.allocator())?;
    steps.push(Inward::Member(name))?;
    note_column(why, place, &steps)?;
    why.push_member(&MemberAt(place, name))
}

/// Notes at which column the value is to which these steps lead.
fn note_column(why: &mut Said, place: Place<'_>, steps: &[Inward<'_>]) -> Result<(), AllocError>
    ensures member { why.new.member ≡ why.old.member }
    ensures wanted { why.new.wanted ≡ why.old.wanted }
{
    let start = start_of(*why.text.allocator(), place.line, steps)?;
    why.column = start.map(|start| start.saturating_add(1));
    Ok(())
}

/// The steps that lead from the line to the access list at a place.
fn steps_to_list<'a>(alloc: Global, place: Place<'a>) -> Result<Vec<Inward<'a>>, AllocError> {
    let mut steps = place.steps(alloc)?;
    steps.push(Inward::Member("acl"))?;
    Ok(steps)
}

/// Adds the entry of this number of the access list at a place, and notes at which column it is.
pub(crate) fn push_entry(why: &mut Said, place: Place<'_>, number: usize) -> Result<(), AllocError>
    ensures member { OnOk result (member_said why.new
        ≡ Some ((site_of place.entry).front ++ (codes "acl[" ++ (decimal number ++ codes "]")))) }
    ensures wanted { why.new.wanted ≡ why.old.wanted }
{
    let mut steps = steps_to_list(*why.text.allocator(), place)?;
    steps.push(Inward::Item(number))?;
    note_column(why, place, &steps)?;
    why.push_member(&EntryAt(place, number))
}

/// Where the entries of the access list at a place begin.
pub(crate) fn entry_starts(alloc: Global, place: Place<'_>) -> Result<Vec<usize>, AllocError> {
    let steps = steps_to_list(alloc, place)?;
    item_starts(alloc, place.line, &steps)
}

/// Adds the entry of this number of the access list at a place, which begins where it is said.
pub(crate) fn push_entry_from(
    why: &mut Said,
    place: Place<'_>,
    number: usize,
    start: Option<usize>,
) -> Result<(), AllocError> {
    why.column = start.map(|start| start.saturating_add(1));
    why.push_member(&EntryAt(place, number))
}
