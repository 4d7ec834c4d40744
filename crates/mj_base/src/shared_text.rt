//! Texts that several things have together.

ghost use Rattle.std.specs.Prelude.{◌≡◌, IfOk};

use crate::text::Text;
use std::alloc::{AllocError, Global};
use std::marker::Model;
use std::sync::Arc;

/// A text that several things have, in any threads, kept once for all of them. Contracts see the text.
#[derive(Drop)]
pub struct SharedText {
    text: Arc<Text>,
}

impl Model for SharedText {
    ghost use Rattle.std.specs.Prelude.{List, ℕ};
    ghost use Rattle.std.specs.Arc.{arc_value};

    ghost Value = { List ℕ };

    ghost view = { λ t. arc_value t.text };
}

impl SharedText {
    /// A copy of this text, which others can have too.
    pub fn from_str(alloc: Global, text: &str) -> Result<SharedText, AllocError>
        ensures { IfOk result (λ made. made ≡ text.now) }
    {
        let text = Text::from_str(alloc, text)?;
        SharedText::new(alloc, text)
    }

    /// A text that others can have too.
    pub fn new(alloc: Global, text: Text) -> Result<SharedText, AllocError>
        ensures { IfOk result (λ made. made ≡ text) }
    {
        let text = Arc::new(alloc, text)?;
        Ok(SharedText { text })
    }

    /// The same text for one more. Takes no memory.
    pub fn share(&self) -> Result<SharedText, AllocError>
        ensures { IfOk result (λ made. made ≡ self.now) }
    {
        let text = Arc::try_clone(&self.text)?;
        Ok(SharedText { text })
    }

    /// The text itself.
    pub fn as_str(&self) -> &str
        ensures { result.now ≡ self.now }
    {
        self.text.as_str()
    }
}

/// The same text for one more, where there is one. Takes no memory.
pub fn shared(text: &Option<SharedText>) -> Result<Option<SharedText>, AllocError>
    ensures { IfOk result (λ made. made ≡ text.now) }
{
    match text {
        Some(text) => Ok(Some(text.share()?)),
        None => Ok(None),
    }
}
