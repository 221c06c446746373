// Names: the texts of symbols.
ghost use Rattle.std.specs.Prelude.{◌≡◌, ◌↔◌, IfOk, IfSome, IsNone, IsTrue};
ghost use Rattle.std.specs.Bool.{IsFalse};
ghost use Rattle.std.specs.Rc.{rc_str_bytes};
ghost use Rattle.std.specs.Str.{IsUtf8};
ghost use Rattle.rdx_term.specs.Spelling.{is_name};

use crate::error::NoMemory;
use crate::spelling::is_spelling;
use std::marker::Model;
use std::rc::RcStr;

/// The name of a symbol: a symbol spelling other than `hole`. In contracts it is its bytes.
#[derive(Drop)]
pub struct Name {
    text: RcStr,
}

impl Model for Name {
    ghost use Rattle.std.specs.Prelude.{List, ℕ, IsTrue};
    ghost use Rattle.std.specs.Rc.{rc_str_bytes};
    ghost use Rattle.rdx_term.specs.Spelling.{is_name};

    ghost Value = { List ℕ };

    ghost view = { λ a. rc_str_bytes a.text };

    ghost invariant = { λ a. IsTrue (is_name (rc_str_bytes a.text)) };
}

impl Name {
    /// The name with this text, or `None` where the text is no name.
    pub fn new(text: RcStr) -> Option<Name>
        ensures some { IfSome result (λ name. name ≡ rc_str_bytes text) }
        ensures none { IsNone result ↔ IsFalse (is_name (rc_str_bytes text)) }
    {
        if is_spelling(text.as_str()) {
            Some(Name { text })
        } else {
            None
        }
    }

    /// The text of the name.
    pub fn text(&self) -> &str
        ensures value { result.now ≡ self.now }
        ensures valid { IsTrue (is_name self.now) }
        ensures utf8 { IsUtf8 self.now }
    {
        self.text.as_str()
    }

    /// The same name once more; its text is shared.
    pub fn share(&self) -> Result<Name, NoMemory>
        ensures { IfOk result (λ name. name ≡ self.now) }
    {
        let text = self.text.clone()?;
        Ok(Name { text })
    }
}
