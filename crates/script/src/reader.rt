//! A script, read from line to line.

ghost use Rattle.std.specs.Prelude.{◌≡◌, ℕ, ◌+◌, ◌^◌, ◌<◌, ◌≤◌, length};
ghost use Rattle.words.specs.Text.{lines_of};
ghost use Rattle.script.specs.Items.{items_after};

use crate::command::parse;
use crate::item::Item;
use words::text::next_line;

/// The lines of a script that are still to be read.
#[derive(Clone, Copy)]
pub struct Reader<'a> {
    rest: &'a [u8],
    line: usize,
    ghost counts: { line + length rest.now < 2 ^ 64 },
}

impl<'a> Reader<'a> {
    /// All lines of a text.
    pub fn new(text: &'a [u8]) -> Reader<'a>
        ensures { items_after result.line (lines_of result.rest.now) ≡ items_after 0 (lines_of text.now) }
    {
        Reader {
            rest: text,
            line: 0,
        }
    }
}

/// The lines that have words.
impl<'a> Iterator for Reader<'a> {
    type Item = Item<'a>;

    ghost use Rattle.std.specs.Iterator.{item_count};
    ghost use Rattle.script.specs.Readers.{items_left, GivesItem};

    ghost next_gives = { GivesItem };

    ghost remaining = { item_count items_left };

    fn next(&mut self) -> Option<Item<'a>> {
        while let Some(split) = next_line(self.rest) {
            self.rest = split.rest;
            self.line += 1;
            if let Some(command) = parse(split.first).transpose() {
                return Some(Item {
                    line: self.line,
                    command,
                });
            }
        }
        None
    }
}
