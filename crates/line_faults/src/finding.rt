//! What is found in a line, and how it is written.
#![tactic(auto, unfolding(crate::specs::Finding::finding_object))]

ghost use Rattle.std.specs.Prelude.{◌≡◌, ◌++◌, IfOk, OnOk, codes, option_map};
ghost use Rattle.std.specs.String.{string_bytes};
ghost use Rattle.serde_json.specs.Written.{compact_text};
ghost use Rattle.line_faults.specs.Finding.{finding_object, finding_text, number_or_null, text_or_null, title, written};

use serde_json::Value;
use std::alloc::{AllocError, Global};
use std::fmt::Write;
use std::marker::Model;

/// How findings are written.
#[derive(Clone, Copy, Debug, PartialEq, Eq)]
pub enum FindingForm {
    /// Each as a line of text, for people.
    Text,
    /// Each as a JSON object on a line, for programs.
    Json,
}

/// What is found in a line. Without a reply it is a warning.
#[derive(Drop)]
pub(crate) struct Finding<'a> {
    /// The number of the line, from 1.
    pub(crate) line: usize,
    /// The reply that says that the line is refused.
    pub(crate) reply: Option<&'a str>,
    /// The number of the refusal.
    pub(crate) refusal: Option<usize>,
    /// The name of the refusal.
    pub(crate) name: Option<&'a str>,
    /// What is said of it, on one line.
    pub(crate) says: &'a str,
    /// The column of the line, from 1.
    pub(crate) column: Option<usize>,
    /// The member of the line that is meant.
    pub(crate) member: Option<&'a str>,
    /// What stands there.
    pub(crate) found: Option<&'a str>,
    /// What is wanted there.
    pub(crate) wanted: Option<&'a str>,
}

impl<'a> Model for Finding<'a> {
    ghost use Rattle.std.specs.Prelude.{option_map};
    ghost use Rattle.line_faults.specs.Finding.{FindingValue};

    ghost Value = { FindingValue };

    ghost view = { λ f. record {
      line = f.line;
      reply = option_map (λ t. t.now) f.reply;
      refusal = f.refusal;
      name = option_map (λ t. t.now) f.name;
      says = f.says.now;
      column = f.column;
      member = option_map (λ t. t.now) f.member;
      found = option_map (λ t. t.now) f.found;
      wanted = option_map (λ t. t.now) f.wanted;
    } };
}

/// A number as JSON, or null.
fn number_json(alloc: Global, number: Option<usize>) -> Result<String, AllocError>
    ensures { IfOk result (λ json. string_bytes json ≡ compact_text (number_or_null number)) }
{
    match number {
        Some(number) => format!(in alloc; "{number}"),
        None => String::from_str(alloc, "null"),
    }
}

/// A text as JSON, or null.
fn text_json(alloc: Global, text: Option<&str>) -> Result<String, AllocError>
    ensures { IfOk result (λ json. string_bytes json
        ≡ compact_text (text_or_null (option_map (λ t. t.now) text.entry))) }
{
    match text {
        Some(text) => {
            let value = Value::try_from_str(alloc, text)?;
            value.to_string(alloc)
        }
        None => String::from_str(alloc, "null"),
    }
}

/// Adds a member of a JSON object, behind a brace or a comma.
fn push_member(text: &mut String, before: &str, name: &str, json: &str) -> Result<(), AllocError>
    ensures { OnOk result (string_bytes text.new ≡ string_bytes text.old
        ++ (before.now ++ (codes "\"" ++ (name.now ++ (codes "\":" ++ json.now))))) }
{
    write!(text, "{before}\"{name}\":{json}")
}

impl<'a> Finding<'a> {
    /// The reply, or that it is a warning.
    fn title(&self) -> &'a str
        ensures { result.now ≡ title self.entry.now.reply }
    {
        match self.reply {
            Some(reply) => reply,
            None => "warning",
        }
    }

    /// The text of its JSON object, without white space.
    fn object_text(&self, alloc: Global) -> Result<String, AllocError>
        ensures { IfOk result
            (λ text. string_bytes text ≡ compact_text (finding_object self.entry.now)) }
    {
        let mut text = String::new(alloc);
        push_member(&mut text, "{", "column", &number_json(alloc, self.column)?)?;
        push_member(&mut text, ",", "found", &text_json(alloc, self.found)?)?;
        push_member(
            &mut text,
            ",",
            "line",
            &number_json(alloc, Some(self.line))?,
        )?;
        push_member(&mut text, ",", "member", &text_json(alloc, self.member)?)?;
        push_member(&mut text, ",", "name", &text_json(alloc, self.name)?)?;
        push_member(
            &mut text,
            ",",
            "refusal",
            &number_json(alloc, self.refusal)?,
        )?;
        push_member(&mut text, ",", "reply", &text_json(alloc, self.reply)?)?;
        push_member(&mut text, ",", "text", &text_json(alloc, Some(self.says))?)?;
        push_member(&mut text, ",", "wanted", &text_json(alloc, self.wanted)?)?;
        text.push_str("}")?;
        Ok(text)
    }

    /// Adds its JSON object on a line.
    fn push_object(&self, alloc: Global, text: &mut String) -> Result<(), AllocError>
        ensures { OnOk result (string_bytes text.new
            ≡ string_bytes text.old ++ written FindingForm.Json self.entry.now) }
    {
        let object = self.object_text(alloc)?;
        writeln!(text, "{object}")
    }

    /// Adds its line of text.
    fn push_text(&self, text: &mut String) -> Result<(), AllocError>
        ensures { OnOk result (string_bytes text.new
            ≡ string_bytes text.old ++ finding_text self.entry.now) }
    {
        let title = self.title();
        writeln!(text, "line {}: {title}: {}", self.line, self.says)
    }

    /// Adds it as a line, in this form.
    pub(crate) fn push_to(
        &self,
        alloc: Global,
        form: FindingForm,
        text: &mut String,
    ) -> Result<(), AllocError>
        ensures { OnOk result (string_bytes text.new
            ≡ string_bytes text.old ++ written form self.entry.now) }
    {
        match form {
            FindingForm::Text => self.push_text(text),
            FindingForm::Json => self.push_object(alloc, text),
        }
    }
}
