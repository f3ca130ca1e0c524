ghost use Rattle.std.specs.Prelude.{◌≡◌, ℕ, ◌≤◌, ◌%◌, Some, None, slice_index};
ghost use Rattle.hosts.specs.Rack.{rack_meaning, rack_world, new_rack, charge_of, used, gives, CountsUses};

use crate::host::Host;
use exceptions::links::LinkTable;
use exceptions::questions::{FailKind, PyIterReturn};
use exceptions::world::Exceptions;

// Eight devices, each with a charge of 0 to 3.
#[derive(Drop)]
pub struct Rack {
    charges: [u8; 8],
    links: LinkTable<8>,
    ghost low: { ((k : ℕ) → slice_index charges k ≤ 3) },
}

// Kept: the tape has these words with 64 in place of 8. One impl over every host that lends its table would leave the table's size
// open, and want a clause on what comes back from the loan: longer than the two calls.
impl Exceptions for Rack {
    const EXCEPTIONS: u16 = 8;

    ghost limit = { 8 };

    ghost world = { λ s. rack_world s.charges s.links.contexts };

    fn how_many() -> u16 {
        Self::EXCEPTIONS
    }

    fn context(&self, e: u16) -> Option<u16> {
        self.links.context(e)
    }

    fn set_context(&mut self, e: u16, c: Option<u16>) {
        self.links.set_context(e, c);
    }

    fn vouch(&self) {}
}

impl Host for Rack {
    const NONE: u32 = 0;

    ghost none = { 0 };

    fn none_handle() -> u32 {
        Self::NONE
    }

    fn signal(&mut self) -> Result<(), u16> {
        Ok(())
    }

    fn truth(&mut self, v: u32) -> Result<bool, u16> {
        Ok(self.charges[device_of(v) as usize] > 0)
    }

    fn iterate(&mut self, v: u32) -> Result<u32, u16> {
        Ok(v)
    }

    fn next(&mut self, v: u32) -> Result<PyIterReturn, u16> {
        Ok(
            self.draw(v)
                .map_or(PyIterReturn::StopIteration(None), PyIterReturn::Return),
        )
    }

    fn call(&mut self, f: u32, _args: &[u32]) -> Result<u32, u16> {
        self.draw(f).ok_or(device_of(f))
    }

    fn enter_of(&mut self, v: u32) -> Result<Option<u32>, u16> {
        Ok(Some(v))
    }

    fn exit_of(&mut self, v: u32) -> Result<u32, u16> {
        Ok(v)
    }

    fn instantiate(&mut self, v: u32) -> Result<u16, u16> {
        Ok(device_of(v))
    }

    fn value_of(&mut self, e: u16) -> u32 {
        u32::from(e)
    }

    fn split(&mut self, e: u16) -> [u32; 3] {
        [u32::from(e); 3]
    }

    fn send(&mut self, v: u32, _w: u32) -> Result<PyIterReturn, u16> {
        self.next(v)
    }

    fn fail(&mut self, kind: FailKind, _a: u32) -> u16 {
        kind as u16 % 8
    }

    fn trace(&mut self, _e: u16, _index: u16, _row: u32) {}
}

impl Rack {
    // No device has a charge, and no exception a context.
    #[tactic(auto, using(crate::proofs::Charges::new_counts))]
    pub fn new() -> Self
        ensures new { rack_world result.charges result.links.contexts ≡ new_rack }
        ensures counts { CountsUses (rack_meaning result.charges) }
    {
        Rack {
            charges: [0; 8],
            links: LinkTable::new(),
        }
    }

    // Uses a device: its charge falls to 0 at 3, and else grows and is given.
    fn draw(&mut self, h: u32) -> Option<u32>
        ensures told { result ≡ gives None Some (charge_of self.old.charges h) }
        ensures charges { self.new.charges ≡ used self.old.charges h }
        ensures links { self.new.links ≡ self.old.links }
    {
        let charge = &mut self.charges[device_of(h) as usize];
        if *charge == 3 {
            *charge = 0;
            return None;
        }
        *charge += 1;
        Some(u32::from(*charge))
    }
}

// The device that a handle names, and the exception.
fn device_of(h: u32) -> u16
    ensures { result ≡ h % 8 }
{
    (h % 8) as u16
}
