// What an instruction is called, and what its operand names.
ghost use Rattle.std.specs.Prelude.{◌≡◌, Some};
ghost use Rattle.table.specs.Names.{instruction_text, name_of, operand_of, operand_text};

use crate::instructions::Instruction;
use std::fmt;

// An operand by what it names.
// Kept: Nothing is a case here, and the operand is no Option: each case below would be wrapped in Some, and an Option cannot be given a Display.
#[derive(Clone, Copy, Debug, PartialEq, Eq)]
pub enum Operand {
    Nothing,
    Constant(u16),
    Local(u16),
    Count(u16),
    Target(u16),
    Flag(u8),
}

// Kept: texts by a match, since the Display of an instruction has its operand too.
impl Instruction {
    pub fn name(self) -> &'static str
        ensures { result.now ≡ name_of self }
    {
        match self {
            Instruction::LoadConst { .. } => "LoadConst",
            Instruction::LoadFast { .. } => "LoadFast",
            Instruction::StoreFast { .. } => "StoreFast",
            Instruction::Pop => "Pop",
            Instruction::Reverse { .. } => "Reverse",
            Instruction::CallFunctionPositional { .. } => "CallFunctionPositional",
            Instruction::GetIter => "GetIter",
            Instruction::ForIter { .. } => "ForIter",
            Instruction::Jump { .. } => "Jump",
            Instruction::JumpIfTrue { .. } => "JumpIfTrue",
            Instruction::JumpIfFalse { .. } => "JumpIfFalse",
            Instruction::SetupLoop => "SetupLoop",
            Instruction::SetupExcept { .. } => "SetupExcept",
            Instruction::SetupFinally { .. } => "SetupFinally",
            Instruction::EnterFinally { .. } => "EnterFinally",
            Instruction::EndFinally => "EndFinally",
            Instruction::SetupWith { .. } => "SetupWith",
            Instruction::WithCleanupStart => "WithCleanupStart",
            Instruction::WithCleanupFinish => "WithCleanupFinish",
            Instruction::PopBlock => "PopBlock",
            Instruction::PopException => "PopException",
            Instruction::Raise { .. } => "Raise",
            Instruction::Break { .. } => "Break",
            Instruction::Continue { .. } => "Continue",
            Instruction::ReturnValue => "ReturnValue",
            Instruction::ReturnConst { .. } => "ReturnConst",
            Instruction::YieldValue => "YieldValue",
            Instruction::YieldFrom => "YieldFrom",
        }
    }

    pub fn operand(self) -> Operand
        ensures { result ≡ operand_of self }
    {
        match self {
            Instruction::LoadConst { idx } => Operand::Constant(idx),
            Instruction::LoadFast { idx } => Operand::Local(idx),
            Instruction::StoreFast { idx } => Operand::Local(idx),
            Instruction::Reverse { amount } => Operand::Count(amount),
            Instruction::CallFunctionPositional { nargs } => Operand::Count(nargs),
            Instruction::ForIter { target } => Operand::Target(target),
            Instruction::Jump { target } => Operand::Target(target),
            Instruction::JumpIfTrue { target } => Operand::Target(target),
            Instruction::JumpIfFalse { target } => Operand::Target(target),
            Instruction::SetupExcept { handler } => Operand::Target(handler),
            Instruction::SetupFinally { handler } => Operand::Target(handler),
            Instruction::EnterFinally { end } => Operand::Flag(end),
            Instruction::SetupWith { end } => Operand::Target(end),
            Instruction::Raise { kind } => Operand::Flag(kind as u8),
            Instruction::Break { target } => Operand::Target(target),
            Instruction::Continue { target } => Operand::Target(target),
            Instruction::ReturnConst { idx } => Operand::Constant(idx),
            Instruction::Pop
            | Instruction::GetIter
            | Instruction::SetupLoop
            | Instruction::EndFinally
            | Instruction::WithCleanupStart
            | Instruction::WithCleanupFinish
            | Instruction::PopBlock
            | Instruction::PopException
            | Instruction::ReturnValue
            | Instruction::YieldValue
            | Instruction::YieldFrom => Operand::Nothing,
        }
    }
}

// After a space, what stands behind the instruction's name.
impl fmt::Display for Operand {
    ghost output = { λ o. Some (operand_text o) };

    fn fmt<W: fmt::Write>(&self, f: &mut fmt::Formatter<W>) -> fmt::Result {
        match *self {
            Operand::Nothing => Ok(()),
            Operand::Constant(n) => write!(f, " constant {n}"),
            Operand::Local(n) => write!(f, " local {n}"),
            Operand::Count(n) => write!(f, " {n}"),
            Operand::Target(n) => write!(f, " to {n}"),
            Operand::Flag(n) => write!(f, " {n}"),
        }
    }
}

impl fmt::Display for Instruction {
    ghost output = { λ i. Some (instruction_text i) };

    fn fmt<W: fmt::Write>(&self, f: &mut fmt::Formatter<W>) -> fmt::Result {
        let name = self.name();
        let operand = self.operand();
        write!(f, "{name}{operand}")
    }
}
