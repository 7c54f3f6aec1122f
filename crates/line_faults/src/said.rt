//! What is said of a line: a text, and which of its parts a program reads by itself.

ghost use Rattle.std.specs.Prelude.{◌≡◌, None, Some, IfOk, IfSome, OnOk, option_map};
ghost use Rattle.std.specs.String.{string_bytes};
ghost use Rattle.line_faults.specs.inner.Meaning.{IsStill, member_said, wanted_said};

use std::alloc::{AllocError, Allocator, Global};
use std::fmt::{Display, Write};

/// What is said of a line, so far: a text, and the column that is meant; and of the text again the
/// member that is meant, what stands there, and what is wanted there.
#[derive(Drop)]
pub(crate) struct Said {
    pub(crate) text: String,
    pub(crate) column: Option<usize>,
    member: Option<String>,
    found: Option<String>,
    wanted: Option<String>,
}

/// The text, if there is one.
fn lent(text: &Option<String>) -> Option<&str>
    ensures { option_map (λ t. t.now) result ≡ option_map string_bytes text.now }
{
    match text {
        Some(text) => Some(text.as_str()),
        None => None,
    }
}

impl Said {
    /// Nothing yet.
    pub(crate) fn new(alloc: Global) -> Self
        ensures member { result.member ≡ None }
        ensures wanted { result.wanted ≡ None }
    {
        Self {
            text: String::new(alloc),
            column: None,
            member: None,
            found: None,
            wanted: None,
        }
    }

    /// The member that is meant.
    pub(crate) fn member(&self) -> Option<&str>
        ensures { option_map (λ t. t.now) result ≡ option_map string_bytes self.now.member }
    {
        lent(&self.member)
    }

    /// What stands there.
    pub(crate) fn found(&self) -> Option<&str>
        ensures { option_map (λ t. t.now) result ≡ option_map string_bytes self.now.found }
    {
        lent(&self.found)
    }

    /// What is wanted there.
    pub(crate) fn wanted(&self) -> Option<&str>
        ensures { option_map (λ t. t.now) result ≡ option_map string_bytes self.now.wanted }
    {
        lent(&self.wanted)
    }

    /// Adds something. Returns it as a text.
    fn push<D: Display>(&mut self, what: &D) -> Result<String, AllocError>
        ensures text { IfOk result (λ text. IfSome (D.output what.now)
            (λ bytes. string_bytes text ≡ bytes)) }
        ensures member { self.new.member ≡ self.old.member }
        ensures wanted { self.new.wanted ≡ self.old.wanted }
    {
        let mut text = String::new(*self.text.allocator());
        write!(text, "{what}")?;
        self.text.push_str(&text)?;
        Ok(text)
    }

    /// Adds the member that is meant.
    pub(crate) fn push_member<D: Display>(&mut self, member: &D) -> Result<(), AllocError>
        ensures member { OnOk result (IfSome (D.output member.now)
            (λ bytes. member_said self.new ≡ Some bytes)) }
        ensures wanted { self.new.wanted ≡ self.old.wanted }
    {
        self.member = Some(self.push(member)?);
        Ok(())
    }

    /// Adds what stands from a column on.
    pub(crate) fn push_rest<D: Display>(&mut self, rest: &D) -> Result<(), AllocError>
        ensures { IsStill self.old self.new }
    {
        self.text.push_str(": ")?;
        self.found = Some(self.push(rest)?);
        Ok(())
    }

    /// Adds what stands there.
    pub(crate) fn push_found<D: Display>(&mut self, found: &D) -> Result<(), AllocError>
        ensures { IsStill self.old self.new }
    {
        self.text.push_str(": found ")?;
        self.found = Some(self.push(found)?);
        Ok(())
    }

    /// Adds what is wanted there.
    pub(crate) fn push_wanted<D: Display>(&mut self, wanted: &D) -> Result<(), AllocError>
        ensures wanted { OnOk result (IfSome (D.output wanted.now)
            (λ bytes. wanted_said self.new ≡ Some bytes)) }
        ensures member { self.new.member ≡ self.old.member }
    {
        self.text.push_str(", wanted ")?;
        self.wanted = Some(self.push(wanted)?);
        Ok(())
    }

    /// Adds the column at which a line can't be read, counted from 1 in bytes.
    pub(crate) fn push_column(&mut self, column: usize) -> Result<(), AllocError>
        ensures { IsStill self.old self.new }
    {
        self.column = Some(column);
        write!(self.text, "column {column}")
    }
}
