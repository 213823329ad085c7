// The parts of a script, as a list.
ghost use Rattle.std.specs.Prelude.{◌≡◌, ◌<◌, [], ◌∷◌, ◌++◌, map, length};
ghost use Rattle.std.specs.Option.{option_map};
ghost use Rattle.std.specs.List.{slice_get};
ghost use Rattle.scripts.specs.Lists.{part_of, parts_of};
ghost use Rattle.scripts.specs.Reading.{ends_empty, named, newest, none, opened, with_newest};

use crate::bounded::{OperationList, Script, ScriptPart};
use crate::types::Operation;
use short_lists::ShortList;

impl ScriptPart {
    // A part without operations.
    fn opened(service: u8, place: usize) -> Self
        ensures { part_of result ≡ opened service place }
    {
        ScriptPart {
            service,
            place,
            operations: OperationList::new(Operation::Look { key: 0 }),
        }
    }
}

impl Script {
    pub(crate) fn new() -> Self
        ensures { parts_of result ≡ [] }
    {
        Script {
            parts: ShortList::new(ScriptPart::opened(0, 0)),
        }
    }

    /// The parts in their order.
    pub fn as_slice(&self) -> &[ScriptPart]
        ensures { map part_of result.now ≡ parts_of self.now }
    {
        self.parts.as_slice()
    }

    /// How many parts there are.
    pub fn len(&self) -> usize
        ensures { result ≡ length (parts_of self.now) }
    {
        self.parts.len()
    }

    pub(crate) fn is_empty(&self) -> bool
        ensures { result ≡ none (parts_of self.now) }
    {
        self.parts.is_empty()
    }

    /// The part with a number, from 0.
    pub fn part(&self, i: usize) -> Option<ScriptPart>
        ensures { option_map part_of result ≡ slice_get (parts_of self.now) i }
    {
        self.parts.get(i)
    }

    // Whether a part is for the service.
    pub(crate) fn names(&self, service: u8) -> bool
        ensures { result ≡ named service (parts_of self.now) }
    {
        self.as_slice().iter().any(|part| part.service == service)
    }

    // How many operations the newest part has.
    pub(crate) fn newest_len(&self) -> usize
        ensures { result ≡ length (newest (parts_of self.now)).operations }
    {
        self.as_slice()
            .last()
            .map_or(0, |part| part.operations.len())
    }

    // Whether the newest part has no operation.
    pub(crate) fn ends_empty(&self) -> bool
        ensures { result ≡ ends_empty (parts_of self.now) }
    {
        self.as_slice()
            .last()
            .is_some_and(|part| part.operations.is_empty())
    }

    // Opens a part.
    pub(crate) fn open(&mut self, service: u8, place: usize)
        requires { length (parts_of self.old) < 4 }
        ensures { parts_of self.new ≡ parts_of self.old ++ (opened service place ∷ []) }
    {
        self.parts.push(ScriptPart::opened(service, place)).unwrap();
    }

    // Adds an operation to the newest part, which is taken out and put back: lending it would take a
    // contract on the loan for this one caller.
    pub(crate) fn add(&mut self, operation: Operation)
        requires { (0 < length (parts_of self.old)) × (length (newest (parts_of self.old)).operations < 8) }
        ensures { parts_of self.new ≡ with_newest operation (parts_of self.old) }
    {
        let last = self.len() - 1;
        let mut part = self.as_slice()[last];
        part.operations.push(operation).unwrap();
        self.parts.set(last, part);
    }
}
