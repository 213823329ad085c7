// A place in a script and what was read before it. The cursor goes on command by command.
ghost use Rattle.std.specs.Prelude.{◌≡◌, ◌<◌, ◌≤◌, true, length};
ghost use Rattle.scripts.specs.Cursors.{Hands, between, progress, script_of};
ghost use Rattle.scripts.specs.Lists.{parts_of};
ghost use Rattle.scripts.specs.Reading.{next_progress, take_in};
ghost use Rattle.scripts.specs.Steps.{Leads, Passed, Reads, Stepped};

use crate::bounded::{OPERATION_LIMIT, PART_LIMIT, Script};
use crate::commands::{Command, OPEN, command_at};
use crate::types::{ScriptReason, ScriptRefusal};

// `at` may stand at the end, so what reads a command asks for one.
#[derive(Clone, Copy)]
pub(crate) struct Cursor<'a> {
    pub(crate) bytes: &'a [u8],
    pub(crate) services: u8,
    pub(crate) at: usize,
    pub(crate) script: Script,
}

/// A part as it stands in the script, from its opening code on.
#[derive(Clone, Copy, PartialEq, Eq, Debug)]
pub struct PartText<'a> {
    pub service: u8,
    pub place: usize,
    pub text: &'a [u8],
}

impl<'a> Cursor<'a> {
    // Reads one part, or sees that none is left.
    pub(crate) fn part(&mut self) -> Result<Option<PartText<'a>>, ScriptRefusal>
        requires { between self.old ≡ true }
        ensures { Hands result self.old self.new }
    {
        let place = self.at;
        if place >= self.bytes.len() {
            return self.end();
        }
        self.step()?;
        let service = self.bytes[place + 1];
        self.pass_operations()?;
        Ok(Some(PartText {
            service,
            place,
            text: &self.bytes[place..self.at],
        }))
    }

    // At the end there must be a part, and the last one must have an operation.
    fn end(&self) -> Result<Option<PartText<'a>>, ScriptRefusal>
        requires { length (script_of self.now) ≤ self.now.at }
        ensures { Hands result self.now self.now }
    {
        if self.script.is_empty() || self.script.ends_empty() {
            return Err(ScriptRefusal {
                reason: ScriptReason::EmptyPart,
                place: self.bytes.len(),
            });
        }
        Ok(None)
    }

    // Reads one command; a refusal blames its place.
    #[tactic(auto, using(crate::proofs::Steps::steps))]
    fn step(&mut self) -> Result<(), ScriptRefusal>
        requires { self.old.at < length (script_of self.old) }
        ensures { Reads Stepped result self.old self.new }
    {
        let place = self.at;
        self.command()
            .map_err(|reason| ScriptRefusal { reason, place })
    }

    // Reads one command, or says why it is refused.
    fn command(&mut self) -> Result<(), ScriptReason>
        requires { self.old.at < length (script_of self.old) }
        ensures bytes { self.new.bytes ≡ self.old.bytes }
        ensures services { self.new.services ≡ self.old.services }
        ensures leads { Leads result (progress self.new) (next_progress self.old.services (script_of self.old) (progress self.old)) }
    {
        let spelled = command_at(self.bytes, self.at)?;
        self.script
            .take_in(self.services, self.at, spelled.command)?;
        self.at = spelled.end;
        Ok(())
    }

    // Reads the operations of a part, up to the next opening code or the end of the script. Each
    // command tells how far the place moves, so this is no `for`.
    fn pass_operations(&mut self) -> Result<(), ScriptRefusal>
        requires { self.old.at ≤ length (script_of self.old) }
        ensures { Reads Passed result self.old self.new }
    {
        while self.at < self.bytes.len() && self.bytes[self.at] != OPEN {
            self.step()?;
        }
        Ok(())
    }
}

impl Script {
    // Takes a command into the script: each rule in its turn.
    fn take_in(&mut self, services: u8, place: usize, command: Command) -> Result<(), ScriptReason>
        ensures { Leads result (parts_of self.new) (take_in services place command (parts_of self.old)) }
    {
        match command {
            Command::Open { service } if service >= services => Err(ScriptReason::NoSuchService),
            Command::Open { .. } if self.ends_empty() => Err(ScriptReason::EmptyPart),
            Command::Open { service } if self.names(service) => Err(
                ScriptReason::ServiceNamedTwice,
            ),
            Command::Open { .. } if self.len() >= PART_LIMIT => Err(ScriptReason::TooManyParts),
            Command::Open { service } => {
                self.open(service, place);
                Ok(())
            }
            Command::Act { .. } if self.is_empty() => Err(ScriptReason::OperationBeforePart),
            Command::Act { .. } if self.newest_len() >= OPERATION_LIMIT => {
                Err(ScriptReason::TooManyOperations)
            }
            Command::Act { operation } => {
                self.add(operation);
                Ok(())
            }
        }
    }
}
