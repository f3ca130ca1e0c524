ghost use Rattle.std.specs.Prelude.{◌≡◌, ℕ};
ghost use Rattle.hosts_cases.specs.Echo.{echo_world, new_echo};

use exceptions::links::LinkTable;
use exceptions::questions::{FailKind, PyIterReturn};
use exceptions::world::Exceptions;
use hosts::host::Host;

// A host of 256 exceptions, whose numbers are the bytes: every exception that it gives is the byte that it is made with.
// It shows that a host may rest on what the machine's integers hold: no ghost field says that its byte is below 256.
#[derive(Drop)]
pub struct Echo {
    byte: u8,
    links: LinkTable<256>,
}

impl Exceptions for Echo {
    const EXCEPTIONS: u16 = 256;

    ghost limit = { 256 };

    ghost world = { λ s. echo_world s.byte s.links.contexts };

    fn how_many() -> u16 {
        Self::EXCEPTIONS
    }

    fn context(&self, e: u16) -> Option<u16> {
        self.links.context(e)
    }

    fn set_context(&mut self, e: u16, c: Option<u16>) {
        self.links.set_context(e, c);
    }

    // The byte is read for the proof: what a body reads is known to be in the range of its type, here below 256.
    fn vouch(&self) {
        let _byte = self.byte;
    }
}

impl Host for Echo {
    const NONE: u32 = 0;

    ghost none = { 0 };

    fn none_handle() -> u32 {
        Self::NONE
    }

    fn signal(&mut self) -> Result<(), u16> {
        Ok(())
    }

    fn truth(&mut self, v: u32) -> Result<bool, u16> {
        Ok(v > 0)
    }

    fn iterate(&mut self, v: u32) -> Result<u32, u16> {
        Ok(v)
    }

    fn next(&mut self, v: u32) -> Result<PyIterReturn, u16> {
        Ok(PyIterReturn::Return(v))
    }

    fn call(&mut self, _f: u32, _args: &[u32]) -> Result<u32, u16> {
        Err(u16::from(self.byte))
    }

    fn enter_of(&mut self, v: u32) -> Result<Option<u32>, u16> {
        Ok(Some(v))
    }

    fn exit_of(&mut self, v: u32) -> Result<u32, u16> {
        Ok(v)
    }

    fn instantiate(&mut self, _v: u32) -> Result<u16, u16> {
        Ok(u16::from(self.byte))
    }

    fn value_of(&mut self, e: u16) -> u32 {
        u32::from(e)
    }

    fn split(&mut self, e: u16) -> [u32; 3] {
        [u32::from(e); 3]
    }

    fn send(&mut self, _v: u32, w: u32) -> Result<PyIterReturn, u16> {
        Ok(PyIterReturn::Return(w))
    }

    fn fail(&mut self, _kind: FailKind, _a: u32) -> u16 {
        u16::from(self.byte)
    }

    fn trace(&mut self, _e: u16, _index: u16, _row: u32) {}
}

impl Echo {
    // No exception has a context.
    pub fn new(byte: u8) -> Self
        ensures { echo_world result.byte result.links.contexts ≡ new_echo byte }
    {
        Echo {
            byte,
            links: LinkTable::new(),
        }
    }
}
