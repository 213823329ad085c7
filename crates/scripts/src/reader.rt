// Hands out the parts of a script as stretches of the script itself, and reads a whole script.
ghost use Rattle.std.specs.Prelude.{◌≡◌, true, is_err};
ghost use Rattle.scripts.specs.Cursors.{Hands, between, comes_to, progress};
ghost use Rattle.scripts.specs.Lists.{answer_of};
ghost use Rattle.scripts.specs.Reading.{read_script, start};

use crate::bounded::Script;
use crate::cursor::{Cursor, PartText};
use crate::types::ScriptRefusal;

/// A reader of a script: it stands where a part may begin.
#[derive(Clone, Copy)]
pub struct Reader<'a> {
    cursor: Cursor<'a>,
    ghost begins: { between cursor ≡ true },
}

impl<'a> Reader<'a> {
    /// A reader at the start of a script, for so many services.
    pub fn new(bytes: &'a [u8], services: u8) -> Self
        ensures starts { progress result.cursor ≡ start }
        ensures comes { comes_to result.cursor ≡ read_script services bytes.now }
    {
        Reader {
            cursor: Cursor {
                bytes,
                services,
                at: 0,
                script: Script::new(),
            },
        }
    }

    /// Reads the next part, if one is left. A refused part leaves the reader as it was, so that a
    /// `for` over it would not end: this is no `Iterator`.
    pub fn next_part(&mut self) -> Result<Option<PartText<'a>>, ScriptRefusal>
        ensures hands { Hands result self.old.cursor self.new.cursor }
        ensures unchanged { is_err result ≡ true → self.new.cursor ≡ self.old.cursor }
    {
        let mut ahead = self.cursor;
        let part = ahead.part()?;
        self.cursor = ahead;
        Ok(part)
    }

    /// The parts that were read.
    pub fn script(&self) -> Script
        ensures { result ≡ self.now.cursor.script }
    {
        self.cursor.script
    }
}

/// Reads a script for so many services: its parts, or the first refusal.
pub fn read_script(bytes: &[u8], services: u8) -> Result<Script, ScriptRefusal>
    ensures { answer_of result ≡ read_script services bytes.now }
{
    let mut reader = Reader::new(bytes, services);
    read_all(&mut reader)
}

// Reads all parts that are left.
fn read_all(reader: &mut Reader<'_>) -> Result<Script, ScriptRefusal>
    ensures { answer_of result ≡ comes_to reader.old.cursor }
{
    while reader.next_part()?.is_some() {}
    Ok(reader.script())
}
