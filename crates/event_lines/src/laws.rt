//! Laws of the table of lines: each is the contract of a function that does nothing.

ghost use Rattle.std.specs.Prelude.{◌≡◌, ℕ, true, is_some, not, List};
ghost use Rattle.std.specs.List.{list_all, list_any};
ghost use Rattle.std.specs.Option.{is_none};
ghost use Rattle.std.specs.Str.{bytes_eq};
ghost use Rattle.serde_json.specs.Data.{Data};
ghost use Rattle.scion_topology.specs.Reading.{as_entry_at, link_at};
ghost use Rattle.event_lines.specs.Line.{is_formed, line_with_word, line_words, lines, members_of, options_in};
ghost use Rattle.event_lines.specs.PolicyForm.{policy_misfit};
ghost use Rattle.event_lines.specs.Members.{MemberValue, as_members, first_misfit, has_link, has_members};

/// An object with a word is a line exactly if it has each member of the word in its form, and with
/// `ask` a policy.
pub fn lines_are_formed()
    ensures { (word : List ℕ) (d : Data) → is_some (line_with_word word d) ≡ is_formed word d }
{}

/// A request has a policy exactly if no part of it has not its form.
pub fn policies_are_formed()
    ensures { (d : Data) → is_some (options_in d) ≡ is_none (policy_misfit d) }
{}

/// An object of a topology is an AS exactly if it has each member of an AS in its form.
pub fn ases_are_formed()
    ensures { (d : Data) → is_some (as_entry_at d) ≡ has_members as_members d }
{}

/// An object of a topology is a link exactly if it has each member of a link in its form, and its
/// ends those of an end.
pub fn links_are_formed()
    ensures { (d : Data) → is_some (link_at d) ≡ has_link d }
{}

/// An object has all of some members exactly if there is no first one that it does not have.
pub fn none_misfits()
    ensures { (members : List MemberValue) (d : Data)
        → is_some (first_misfit members d) ≡ not (has_members members d) }
{}

/// Each line of the table has one of the words.
pub fn lines_have_words()
    ensures { list_all (λ form. list_any (bytes_eq form.word) line_words) lines ≡ true }
{}

/// Each word of lines has its members.
pub fn words_have_members()
    ensures { list_all (λ word. is_some (members_of word)) line_words ≡ true }
{}
