ghost use Rattle.std.specs.Prelude.{◌≡◌, ◌++◌, ◌∷◌, [], map, IfOk, OnOk, OnErr};
ghost use Rattle.std.specs.String.{string_bytes};

use std::alloc::{AllocError, Global};
use std::marker::Model;

/// The texts of an access control list's entries, in order.
#[derive(Debug, Drop)]
pub struct AclText {
    texts: Vec<String>,
}

impl Model for AclText {
    ghost use Rattle.std.specs.Prelude.{List, ℕ, map};
    ghost use Rattle.std.specs.String.{string_bytes};

    ghost Value = { List (List ℕ) };

    ghost view = { λ text. map string_bytes text.texts.items };
}

impl AclText {
    /// No texts.
    pub fn new(alloc: Global) -> AclText
        ensures { result ≡ [] }
    {
        AclText {
            texts: Vec::new(alloc),
        }
    }

    /// Adds a text at the end. If memory runs out, the list is as it was.
    pub fn push(&mut self, alloc: Global, text: &str) -> Result<(), AllocError>
        ensures ok { OnOk result (self.new ≡ self.old ++ text.now ∷ []) }
        ensures err { OnErr result (self.new ≡ self.old) }
    {
        let text = String::from_str(alloc, text)?;
        self.texts.push(text)?;
        Ok(())
    }

    /// Copies of these texts, unless memory runs out.
    pub fn try_clone(&self, alloc: Global) -> Result<AclText, AllocError>
        ensures { IfOk result (λ text. text ≡ self.now) }
    {
        let texts = self.texts();
        let mut copy = AclText::new(alloc);
        for text in texts {
            copy.push(alloc, text.as_str())?;
        }
        Ok(copy)
    }

    /// The texts, in order.
    pub fn texts(&self) -> &[String]
        ensures { map string_bytes result.now ≡ self.now }
    {
        &self.texts
    }
}
