//! Text that contracts see as the list of its bytes.

ghost use Rattle.std.specs.Prelude.{◌≡◌, ◌↔◌, ◌<◌, IsTrue, IfOk, OnErr, length, string_bytes};
ghost use Rattle.std.specs.Cmp.{partial_equiv_from_equiv};
ghost use Rattle.std.specs.Cmp.Lexicographic.{nat_list_eq_equiv};
ghost use Rattle.std.specs.Hash as fed;
ghost use Rattle.std.specs.Str.{bytes_eq};
ghost use Rattle.std.proofs.Common.{rules};
ghost use Rattle.kob_names.specs.TextRules.{short_text_limit};

use crate::plain_value::PlainValue;
use crate::short_text::ShortText;
use std::alloc::{AllocError, Global};
use std::fmt;
use std::hash::{Hash, Hasher};
use std::marker::Model;
use std::mem::size_of;

/// An owned text, in 32 bytes. A text of at most 30 bytes is stored inline, a longer one in an
/// allocation of its own.
#[derive(Drop)]
pub struct Text {
    content: Content,
}

/// Where the bytes of a text are stored.
#[derive(Drop)]
enum Content {
    Short(ShortText),
    Long(String),
}

const _: () = prove!(size_of::<Text>() <= 32);

impl Model for Text {
    ghost use Rattle.std.specs.Prelude.{List, ℕ};
    ghost use Rattle.kob_names.specs.Text.{content_bytes};

    ghost Value = { List ℕ };

    ghost view = { λ text. content_bytes text.content };
}

impl Text {
    /// A copy of `text`. Allocates, and can fail, only for more than 30 bytes.
    pub fn copied(alloc: Global, text: &str) -> Result<Text, AllocError>
        ensures value { IfOk result (λ made. made ≡ text.now) }
        ensures short { OnErr result (short_text_limit < length text.now) }
    {
        let content = match ShortText::new(text) {
            Some(short) => Content::Short(short),
            None => Content::Long(String::from_str(alloc, text)?),
        };
        Ok(Text { content })
    }

    /// Takes ownership of the string. Does not allocate.
    pub fn from_string(content: String) -> Text
        ensures { result ≡ string_bytes content }
    {
        Text {
            content: Content::Long(content),
        }
    }

    /// The text. Does not allocate.
    pub fn as_str(&self) -> &str
        ensures { result.now ≡ self.now }
    {
        match &self.content {
            Content::Short(short) => short.as_str(),
            Content::Long(long) => long.as_str(),
        }
    }

    /// The number of its bytes.
    pub fn len(&self) -> usize
        ensures { result ≡ length self.now }
    {
        self.as_str().len()
    }
}

impl PlainValue for Text {
    fn copy(&self, alloc: Global) -> Result<Self, AllocError> {
        Text::copied(alloc, self.as_str())
    }

    fn same(&self, other: &Self) -> bool {
        self == other
    }
}

impl fmt::Debug for Text {
    fn fmt<W: fmt::Write>(&self, f: &mut fmt::Formatter<W>) -> fmt::Result {
        f.debug_struct("Text")
            .field("content", &self.as_str())
            .finish()
    }
}

impl PartialEq for Text {
    ghost eq = { bytes_eq };

    ghost laws = { partial_equiv_from_equiv nat_list_eq_equiv };

    fn eq(&self, other: &Self) -> bool {
        self.as_str() == other.as_str()
    }
}

impl Eq for Text {
    ghost laws = { nat_list_eq_equiv };
}

impl Hash for Text {
    ghost hash_input = { fed.str };

    ghost respects_eq = { Prim.search rules };

    fn hash<H: Hasher>(&self, state: &mut H) {
        self.as_str().hash(state);
    }
}
