ghost use Rattle.std.specs.Prelude.{◌≡◌, ◌%◌};
ghost use Rattle.hosts.specs.Tape.{tape_meaning, tape_world, new_tape, kind_of, entry_of, entry_left, raising, InOrder};

use crate::host::Host;
use exceptions::links::LinkTable;
use exceptions::questions::{FailKind, PyIterReturn};
use exceptions::world::Exceptions;

// Of the bytes that are lent, those still to be read.
#[derive(Drop)]
pub struct Tape<'a> {
    rest: &'a [u8],
    links: LinkTable<64>,
}

// What a question takes off the tape.
#[derive(Clone, Copy, Debug, PartialEq, Eq)]
struct Entry {
    kind: Kind,
    number: u32,
}

// What the number of an entry is, in the questions that tell kinds apart.
#[derive(Clone, Copy, Debug, PartialEq, Eq)]
enum Kind {
    Number,
    Raise,
    Stop,
}

impl From<u8> for Kind {
    ghost from_gives = { λ b k. k ≡ kind_of b };

    fn from(b: u8) -> Self {
        match b {
            1 => Kind::Raise,
            2 => Kind::Stop,
            _ => Kind::Number,
        }
    }
}

impl<'a> Exceptions for Tape<'a> {
    const EXCEPTIONS: u16 = 64;

    ghost limit = { 64 };

    ghost world = { λ s. tape_world s.rest.now s.links.contexts };

    fn how_many() -> u16
        ensures { result ≡ 64 }
    {
        Self::EXCEPTIONS
    }

    fn context(&self, e: u16) -> Option<u16> {
        self.links.context(e)
    }

    fn set_context(&mut self, e: u16, c: Option<u16>) {
        self.links.set_context(e, c);
    }

    fn vouch(&self) {}
}

impl<'a> Host for Tape<'a> {
    const NONE: u32 = 0;

    ghost none = { 0 };

    fn none_handle() -> u32
        ensures { result ≡ 0 }
    {
        Self::NONE
    }

    fn signal(&mut self) -> Result<(), u16> {
        self.take_entry().unless_raised()?;
        Ok(())
    }

    fn truth(&mut self, _v: u32) -> Result<bool, u16> {
        let number = self.take_entry().unless_raised()?;
        Ok(number % 2 == 1)
    }

    fn iterate(&mut self, _v: u32) -> Result<u32, u16> {
        self.take_entry().unless_raised()
    }

    fn next(&mut self, _v: u32) -> Result<PyIterReturn, u16> {
        let entry = self.take_entry();
        let number = entry.unless_raised()?;
        match entry.kind {
            Kind::Stop => Ok(PyIterReturn::StopIteration(Some(number))),
            _ => Ok(PyIterReturn::Return(number)),
        }
    }

    fn call(&mut self, _f: u32, _args: &[u32]) -> Result<u32, u16> {
        self.take_entry().unless_raised()
    }

    fn enter_of(&mut self, _v: u32) -> Result<Option<u32>, u16> {
        let entry = self.take_entry();
        let number = entry.unless_raised()?;
        match entry.kind {
            Kind::Stop => Ok(None),
            _ => Ok(Some(number)),
        }
    }

    fn exit_of(&mut self, _v: u32) -> Result<u32, u16> {
        self.take_entry().unless_raised()
    }

    fn instantiate(&mut self, _v: u32) -> Result<u16, u16> {
        let entry = self.take_entry();
        entry.unless_raised()?;
        Ok(entry.exception())
    }

    fn value_of(&mut self, _e: u16) -> u32 {
        self.take_entry().number
    }

    fn split(&mut self, _e: u16) -> [u32; 3] {
        [self.take_entry().number; 3]
    }

    fn send(&mut self, v: u32, _w: u32) -> Result<PyIterReturn, u16> {
        self.next(v)
    }

    fn fail(&mut self, _kind: FailKind, _a: u32) -> u16 {
        self.take_entry().exception()
    }

    fn trace(&mut self, _e: u16, _index: u16, _row: u32) {}
}

impl<'a> Tape<'a> {
    // The whole tape is still to be read, and no exception has a context.
    #[tactic(auto, using(crate::proofs::Entries::in_order))]
    pub fn new(bytes: &'a [u8]) -> Tape<'a>
        ensures new { tape_world result.rest.now result.links.contexts ≡ new_tape bytes.now }
        ensures order { InOrder bytes.now (tape_meaning result.rest.now) }
    {
        Tape {
            rest: bytes,
            links: LinkTable::new(),
        }
    }

    // Takes five bytes, or nothing where fewer are left.
    // Kept: the number 0, and no Option: a tape that has ended answers it to every question, so each would turn the Option into it.
    #[tactic(auto, unfolding(crate::specs::Tape::entry_of, crate::specs::Tape::entry_left))]
    fn take_entry(&mut self) -> Entry
        ensures told { result ≡ entry_of self.old.rest.now }
        ensures tape { self.new.rest.now ≡ entry_left self.old.rest.now }
        ensures links { self.new.links ≡ self.old.links }
    {
        let [kind, a, b, c, d, rest @ ..] = self.rest else {
            return Entry {
                kind: Kind::Number,
                number: 0,
            };
        };
        self.rest = rest;
        Entry {
            kind: Kind::from(*kind),
            number: u32::from_le_bytes([*a, *b, *c, *d]),
        }
    }
}

impl Entry {
    // The number, unless the kind is the one that raises.
    fn unless_raised(self) -> Result<u32, u16>
        ensures { result ≡ raising self }
    {
        match self.kind {
            Kind::Raise => Err(self.exception()),
            Kind::Number | Kind::Stop => Ok(self.number),
        }
    }

    // The number as an exception.
    fn exception(self) -> u16
        ensures { result ≡ self.number % 64 }
    {
        (self.number % 64) as u16
    }
}
