ghost use Rattle.std.specs.Prelude.{◌≡◌, ◌<◌, ◌≤◌, IfSome};
ghost use Rattle.exceptions.specs.Levels.{first_level, level_count, topmost_of, holdable, level_at, HeldBelow, open_out, open_left, Opened, close_out, close_left, Closed, current_left, open_refusal, close_refusal};

use stacks::stack::FixedStack;
use std::marker::Model;

// How many levels there can be at once.
const MOST_LEVELS: u8 = 16;

// The levels: one that always stands, and up to fifteen opened upon it. Each holds an exception below `exceptions`, or none:
// the last one `current`, those below it as in `lower`.
#[derive(Drop)]
pub struct Levels {
    exceptions: u16,
    current: Option<u16>,
    lower: FixedStack<Option<u16>, 15>,
}

impl Model for Levels {
    ghost use Rattle.exceptions.specs.Levels.{LevelList, HeldBelow};

    ghost Value = { LevelList };

    ghost view = { λ s. record { exceptions = s.exceptions; last = s.current; lower = s.lower } };

    ghost invariant = { λ s. HeldBelow (record { exceptions = s.exceptions; last = s.current; lower = s.lower }) };
}

// The number of an opened level, to be spent by `close`: it cannot be made elsewhere, copied or let go.
pub struct LevelToken {
    level: u8,
}

#[derive(Clone, Copy, Debug, PartialEq, Eq)]
pub enum OpenRefused {
    TooManyLevels,
    ExceptionTooHigh,
}

// Not the last level's token, which comes back.
pub struct CloseRefused {
    pub token: LevelToken,
}

#[tactic(auto, using(crate::proofs::Standing::steps), unfolding(crate::specs::Levels::HeldBelow, crate::specs::Levels::level_count, crate::specs::Levels::topmost_in, crate::specs::Levels::current_left, crate::specs::Levels::open_out, crate::specs::Levels::open_left, crate::specs::Levels::Opened, crate::specs::Levels::close_out, crate::specs::Levels::close_left, crate::specs::Levels::Closed))]
impl Levels {
    pub fn new(exceptions: u16) -> Self
        ensures { result ≡ first_level exceptions }
    {
        Levels {
            exceptions,
            current: None,
            lower: FixedStack::new(),
        }
    }

    // The number that the levels are made for: every exception held is below it.
    pub fn exceptions(&self) -> u16
        ensures told { result ≡ self.now.exceptions }
        ensures below { HeldBelow self.now }
    {
        self.exceptions
    }

    pub fn count(&self) -> u8
        ensures told { result ≡ level_count self.now }
        ensures most { result ≤ 16 }
    {
        self.lower.len() as u8 + 1
    }

    pub fn current(&self) -> Option<u16>
        ensures told { result ≡ self.now.last }
        ensures below { IfSome result (λ e. e < self.now.exceptions) }
    {
        self.current
    }

    // The exception of a level, counted from the bottom; an empty one and one past the last get none.
    pub fn level(&self, i: u8) -> Option<u16>
        ensures { result ≡ level_at i self.now }
    {
        if i as usize == self.lower.len() {
            self.current
        } else {
            self.lower.get(i as usize).flatten()
        }
    }

    pub fn topmost(&self) -> Option<u16>
        ensures told { result ≡ topmost_of self.now }
        ensures below { IfSome result (λ e. e < self.now.exceptions) }
    {
        // A test, and no `or_else`, whose closure would need a contract of its own.
        if self.current.is_some() {
            return self.current;
        }
        self.lower.items().iter().rev().find_map(|held| *held)
    }

    pub fn set_current(&mut self, e: Option<u16>)
        ensures { self.new ≡ current_left e self.old }
    {
        if self.can_hold(e) {
            self.current = e;
        }
    }

    pub fn open(&mut self, e: Option<u16>) -> Result<LevelToken, OpenRefused>
        ensures told { result ≡ open_out e self.old }
        ensures left { self.new ≡ open_left e self.old }
        ensures undone { Opened self.old self.new result }
    {
        let level = self.count();
        if level == MOST_LEVELS {
            return Err(OpenRefused::TooManyLevels);
        }
        if !self.can_hold(e) {
            return Err(OpenRefused::ExceptionTooHigh);
        }
        self.lower.push(self.current).unwrap();
        self.current = e;
        Ok(LevelToken { level })
    }

    pub fn close(&mut self, token: LevelToken) -> Result<(), CloseRefused>
        ensures told { result ≡ close_out token self.old }
        ensures left { self.new ≡ close_left token self.old }
        ensures once { Closed token self.old self.new result }
    {
        if token.level == 0 || token.level as usize != self.lower.len() {
            return Err(CloseRefused { token });
        }
        let LevelToken { level: _ } = token;
        self.current = self.lower.pop().flatten();
        Ok(())
    }

    fn can_hold(&self, e: Option<u16>) -> bool
        ensures { result ≡ holdable self.now.exceptions e }
    {
        e.is_none_or(|e| e < self.exceptions)
    }
}

impl LevelToken {
    pub fn level(&self) -> u8
        ensures { result ≡ self.now.level }
    {
        self.level
    }
}

impl OpenRefused {
    pub fn number(self) -> u8
        ensures { result ≡ (open_refusal self).0 }
    {
        match self {
            OpenRefused::TooManyLevels | OpenRefused::ExceptionTooHigh => 8,
        }
    }
}

impl CloseRefused {
    pub fn number(&self) -> u8
        ensures { result ≡ (close_refusal self.now).0 }
    {
        9
    }
}
