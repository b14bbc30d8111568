ghost use Rattle.std.specs.Prelude.{◌≡◌, ℕ, ◌↔◌, List, Bool, IsTrue, IsSome, IfOk, IfSome};
ghost use Rattle.std.specs.String.{string_bytes};

use std::alloc::{AllocError, Global};
use std::marker::{Model, PhantomData};

/// A rule for the texts of a kind.
pub trait TextRule: Clone + Drop {
    /// Whether the rule accepts these bytes.
    ghost takes: { List ℕ → Bool };

    /// Whether the rule accepts these bytes.
    fn takes(text: &[u8]) -> bool
        ensures { result ≡ takes text.now };
}

/// A text that a rule accepts.
#[derive(Clone, Drop)]
pub struct Text<R: TextRule> {
    text: String,
    rule: PhantomData<R>,
}

impl<R: TextRule> Model for Text<R> {
    ghost use Rattle.std.specs.Prelude.{ℕ, List, IsTrue};
    ghost use Rattle.std.specs.String.{string_bytes};

    ghost Value = { List ℕ };

    ghost view = { λ a. string_bytes a.text };

    ghost invariant = { λ a. IsTrue (R.takes (string_bytes a.text)) };
}

impl<R: TextRule> Text<R> {
    /// The text, or `None` if the rule refuses it. Fails if memory runs out.
    pub fn read(alloc: Global, text: &str) -> Result<Option<Text<R>>, AllocError>
        ensures value { IfOk result (λ found. IfSome found (λ name. name ≡ text.now)) }
        ensures found { IfOk result (λ found. IsSome found ↔ IsTrue (R.takes text.now)) }
    {
        if !R::takes(text.as_bytes()) {
            return Ok(None);
        }
        Ok(Some(Text {
            text: String::from_str(alloc, text)?,
            rule: PhantomData,
        }))
    }

    /// Takes over a `String` as a text, or returns `None` if the rule refuses it.
    pub fn from_string(text: String) -> Option<Text<R>>
        ensures value { IfSome result (λ name. name ≡ string_bytes text) }
        ensures found { IsSome result ↔ IsTrue (R.takes (string_bytes text)) }
    {
        if R::takes(text.as_bytes()) {
            Some(Text {
                text,
                rule: PhantomData,
            })
        } else {
            None
        }
    }

    /// The text.
    pub fn as_str(&self) -> &str
        ensures value { result.now ≡ self.now }
        ensures valid { IsTrue (R.takes self.now) }
    {
        self.text.as_str()
    }
}
