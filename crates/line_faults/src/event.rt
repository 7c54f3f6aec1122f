//! Lines after the first that are refused.

ghost use Rattle.std.specs.Prelude.{◌≡◌, IfSome, OnOk, Some};
ghost use Rattle.serde_json.specs.View.{view};
ghost use Rattle.line_faults.specs.Misfits.{line_misfit, line_site, word_misfit};
ghost use Rattle.line_faults.specs.inner.Meaning.{meant_by, site_of};

use crate::found::push_wanted;
use crate::history::text_of;
use crate::line_words::line_words_text;
use crate::misfit::line_misfit;
use crate::place::{Place, push_object, push_place};
use crate::said::Said;
use event_lines::members::{MemberForm, members_of};
use serde_json::Value;
use std::alloc::{AllocError, Allocator};

/// Adds why a line has none of the forms of lines: the first of its members, in the order in which
/// they are read, that is missing or has not its form.
pub(crate) fn push_bad_line(
    why: &mut Said,
    place: Place<'_>,
    line: &Value,
) -> Result<(), AllocError>
    requires { site_of place ≡ line_site }
    ensures { OnOk result (IfSome (line_misfit (view line.now))
        (λ meant. meant_by why.new ≡ Some meant)) }
{
    let Some(word) = text_of(line, "do") else {
        return push_no_word(why, place, line);
    };
    let Some(members) = members_of(word) else {
        return push_no_word(why, place, line);
    };
    match line_misfit(place, line, word, members) {
        Some(misfit) => misfit.push_to(why),
        None => Ok(()),
    }
}

/// Adds that a line has no word of lines, or that it is no object.
fn push_no_word(why: &mut Said, place: Place<'_>, line: &Value) -> Result<(), AllocError>
    requires { site_of place ≡ line_site }
    ensures { OnOk result (IfSome (word_misfit (view line.now))
        (λ meant. meant_by why.new ≡ Some meant)) }
{
    if !line.is_object() {
        push_object(why, place)?;
        return push_wanted(why, place, Some(line), &MemberForm::Object);
    }
    push_place(why, place, "do")?;
    let words = line_words_text(*why.text.allocator())?;
    push_wanted(why, place, line.get("do"), &words)
}
