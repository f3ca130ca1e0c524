ghost use Rattle.std.specs.Prelude.{◌≡◌, ℕ};
ghost use Rattle.exceptions.specs.Questions.{Signal, Truth, Iterate, Next, Call, EnterOf, ExitOf, Instantiate, ValueOf, Split, Send, Fail, Trace};
ghost use Rattle.exceptions.specs.World.{asked, split_of};
ghost use Rattle.hosts.specs.Asking.{Answered};

use exceptions::questions::{FailKind, PyIterReturn};
use exceptions::world::Exceptions;

// Each question gives the answer that the host means, and leaves it meaning the rest (`Answered`, or clauses of the same words); an Err is an exception raised.
pub trait Host: Exceptions {
    const NONE: u32;

    // NONE, as a contract can name it.
    // Kept: tried, and not to be had for the tape, as with `limit` of Exceptions.
    ghost none: { ℕ };

    // NONE, as generic code can tell a proof of it.
    fn none_handle() -> u32
        ensures { result ≡ none };

    // Whether something outside wants the machine to raise.
    fn signal(&mut self) -> Result<(), u16>
        ensures { Answered Self.limit Signal (Self.world self.old) result (Self.world self.new) };

    fn truth(&mut self, v: u32) -> Result<bool, u16>
        ensures { Answered Self.limit (Truth v) (Self.world self.old) result (Self.world self.new) };

    // The iterator of v.
    fn iterate(&mut self, v: u32) -> Result<u32, u16>
        ensures { Answered Self.limit (Iterate v) (Self.world self.old) result (Self.world self.new) };

    // The next value of the iterator v.
    fn next(&mut self, v: u32) -> Result<PyIterReturn, u16>
        ensures { Answered Self.limit (Next v) (Self.world self.old) result (Self.world self.new) };

    fn call(&mut self, f: u32, args: &[u32]) -> Result<u32, u16>
        ensures { Answered Self.limit (Call f args.now) (Self.world self.old) result (Self.world self.new) };

    // The method by which the manager v is entered, or none.
    fn enter_of(&mut self, v: u32) -> Result<Option<u32>, u16>
        ensures { Answered Self.limit (EnterOf v) (Self.world self.old) result (Self.world self.new) };

    // The method by which the manager v is left.
    fn exit_of(&mut self, v: u32) -> Result<u32, u16>
        ensures { Answered Self.limit (ExitOf v) (Self.world self.old) result (Self.world self.new) };

    // The exception that v is, or that is made of the class v.
    fn instantiate(&mut self, v: u32) -> Result<u16, u16>
        ensures { Answered Self.limit (Instantiate v) (Self.world self.old) result (Self.world self.new) };

    // The handle of the exception e.
    fn value_of(&mut self, e: u16) -> u32
        ensures { Answered Self.limit (ValueOf e) (Self.world self.old) result (Self.world self.new) };

    // The class, the value and the traceback of the exception e.
    fn split(&mut self, e: u16) -> [u32; 3]
        ensures told { result ≡ split_of e (Self.world self.old) }
        ensures left { Self.world self.new ≡ asked (Split e) (Self.world self.old) };

    // The next value of the iterator v, to which w is sent.
    fn send(&mut self, v: u32, w: u32) -> Result<PyIterReturn, u16>
        ensures { Answered Self.limit (Send v w) (Self.world self.old) result (Self.world self.new) };

    // The exception for a failure of the machine's own.
    fn fail(&mut self, kind: FailKind, a: u32) -> u16
        ensures { Answered Self.limit (Fail kind a) (Self.world self.old) result (Self.world self.new) };

    // Notes that e was raised at a row of the source, before the instruction at index.
    fn trace(&mut self, e: u16, index: u16, row: u32)
        ensures { Self.world self.new ≡ asked (Trace e index row) (Self.world self.old) };
}
