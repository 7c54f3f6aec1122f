//! Laws of the texts of sequences and lists: each is the contract of a function that does nothing.

ghost use Rattle.std.specs.Prelude.{◌≡◌, ◌↔◌, ◌≤◌, ℕ, List, None, Ok};
ghost use Rattle.std.specs.List.{AllZip};
ghost use Rattle.policy_expr.specs.declared.hop.HopPred.{HopPred};
ghost use Rattle.policy_expr.specs.declared.acl.AclEntry.{AclEntry};
ghost use Rattle.policy_expr.specs.Acl.{IsAcl, acl_at, acl_fault, entry_at};
ghost use Rattle.policy_expr.specs.Entries.{SpellsEntry};
ghost use Rattle.policy_expr.specs.Predicate.{predicate_at};
ghost use Rattle.policy_expr.specs.Language.{Tree};
ghost use Rattle.policy_expr.specs.Grammar.{SpellsSequence};
ghost use Rattle.policy_expr.specs.Reading.{node_count, sequence_at};
ghost use Rattle.policy_expr.specs.Printing.{IsPredicate, IsSequence, open_count, predicate_text, sequence_text};
ghost use Rattle.policy_expr.specs.Tokens.{tokens};

/// Reading accepts exactly the texts that the grammar spells with at most 256 nodes, and gives the
/// tree that they spell.
pub fn reading_is_the_grammar()
    ensures { (text : List ℕ) (tree : Tree) → (sequence_at text ≡ Ok tree)
        ↔ (SpellsSequence text tree × (node_count tree ≤ 256)) }
{}

/// Reading the printed text of a sequence or of a predicate gives it back.
pub fn printed_is_read()
    ensures sequence { (tree : Tree) → IsSequence tree
        → sequence_at (sequence_text tree) ≡ Ok tree }
    ensures predicate { (pred : HopPred) → IsPredicate pred → predicate_at (predicate_text pred)
        ≡ Ok pred }
{}

/// No text that spells a sequence has fewer parentheses than its printed text.
pub fn printed_has_fewest_parentheses()
    ensures { (tree : Tree) (text : List ℕ) → IsSequence tree → SpellsSequence text tree
        → open_count (tokens (sequence_text tree)) ≤ open_count (tokens text) }
{}

/// Whatever is read from a text keeps the rules of a sequence or of a predicate.
pub fn read_is_kept()
    ensures sequence { (text : List ℕ) (tree : Tree) → sequence_at text ≡ Ok tree
        → IsSequence tree }
    ensures predicate { (text : List ℕ) (pred : HopPred) → predicate_at text ≡ Ok pred
        → IsPredicate pred }
{}

/// The rules of a list find no fault if and only if it is an access control list.
pub fn lists_are_plain()
    ensures { (entries : List AclEntry) → (acl_fault entries ≡ None) ↔ IsAcl entries }
{}

/// A text is read as an entry exactly if it spells the entry. Texts are read as a list exactly if
/// each spells its entry, the entries are at most 256, and the last alone has no predicate.
pub fn entries_are_spelled()
    ensures entry { (text : List ℕ) (entry : AclEntry) → (entry_at text ≡ Ok entry)
        ↔ SpellsEntry text entry }
    ensures list { (texts : List (List ℕ)) (entries : List AclEntry) → (acl_at texts ≡ Ok entries)
        ↔ (AllZip SpellsEntry texts entries × IsAcl entries) }
{}
