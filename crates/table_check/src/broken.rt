// What the check refuses: each case has its number and its place, and names the rule that is broken there.
ghost use Rattle.std.specs.Prelude.{◌≡◌};
ghost use Rattle.table_check.specs.Broken.{number_of, place_of};

use rules::rule::Rule;

#[derive(Clone, Copy, Debug, PartialEq, Eq)]
pub enum Broken {
    // 10: a node breaks a rule
    Node { number: usize, rule: Rule },
    // 11: an instruction breaks a rule
    Instruction { at: usize, rule: Rule },
}

impl Broken {
    pub fn number(self) -> u8
        ensures { result ≡ number_of self }
    {
        match self {
            Broken::Node { .. } => 10,
            Broken::Instruction { .. } => 11,
        }
    }

    pub fn place(self) -> usize
        ensures { result ≡ place_of self }
    {
        match self {
            Broken::Node { number, .. } => number,
            Broken::Instruction { at, .. } => at,
        }
    }
}
