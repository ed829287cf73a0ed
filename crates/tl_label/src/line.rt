// A text that is given up where it is too long.
ghost use Rattle.std.specs.Prelude.{◌≡◌, [], ◌<◌, None, Some, IsTrue, IsFalse, IfOk, OnOk, option_map, unwrap_or, codes};
ghost use Rattle.tl_label.specs.Labels.{most_bytes};
ghost use Rattle.tl_label.specs.Lines.{after, room};

use std::alloc::Global;
use std::marker::Model;
use tl_syntax::{Bytes, NoMemory};

/// The most bytes of a label.
const MOST: usize = 10000;

/// A text while it has at most so many bytes as a label may have, and else nothing.
/// Contracts see its bytes with the number of bytes that it may have more, where it is not too
/// long.
#[derive(Drop)]
pub(crate) struct Line {
    text: Bytes,
    room: usize,
    is_long: bool,
}

impl Model for Line {
    ghost use Rattle.std.specs.Prelude.{if◌then◌else◌, Some, None};
    ghost use Rattle.tl_label.specs.Lines.{Written};

    ghost Value = { Written };

    ghost view = { λ a. if a.is_long then None else Some (a.text, a.room) };
}

impl Line {
    /// The empty text. It takes no memory.
    pub(crate) fn new(alloc: Global) -> Line
        ensures { result ≡ Some ([], most_bytes) }
    {
        Line {
            text: Bytes::new(alloc),
            room: MOST,
            is_long: false,
        }
    }

    /// Puts bytes at the end, where there is room for them, and else gives the text up. It fails
    /// for want of memory alone.
    pub(crate) fn put(&mut self, more: &[u8]) -> Result<(), NoMemory>
        ensures { OnOk result (self.new ≡ after self.old more.now) }
    {
        if self.is_long {
            return Ok(());
        }
        if more.len() > self.room {
            self.is_long = true;
            return Ok(());
        }
        self.text.extend(more)?;
        self.room -= more.len();
        Ok(())
    }

    /// Whether the text is too long. It takes no memory.
    pub(crate) fn is_long(&self) -> bool
        ensures long { IsTrue result → self.now ≡ None }
        ensures short { IsFalse result → 0 < room self.now }
    {
        self.is_long
    }

    /// The text; where it is too long, the word for that.
    pub(crate) fn finish(self, alloc: Global) -> Result<Bytes, NoMemory>
        ensures { IfOk result
            (λ text. text ≡ unwrap_or (option_map (λ w. w.0) self) (codes "long")) }
    {
        if !self.is_long {
            return Ok(self.text);
        }
        let mut text = Bytes::new(alloc);
        text.extend(b"long")?;
        Ok(text)
    }
}
