// What each instruction takes from the stack and gives to it where it goes on to the next one.
ghost use Rattle.std.specs.Prelude.{◌≡◌, ◌≤◌, pos, negsuc, ◌≤ℤ◌};
ghost use Rattle.rules.specs.Effects.{depth_after, effect, gives, needs, raises, takes};

use table::instructions::{Instruction, RaiseKind};

// A raise takes its exception, a reraise nothing.
fn raises(kind: RaiseKind) -> u32
    ensures { result ≡ raises kind }
{
    match kind {
        RaiseKind::Reraise => 0,
        RaiseKind::Raise => 1,
    }
}

pub fn takes(op: Instruction) -> u32
    ensures value { result ≡ takes op }
    ensures bound { result ≤ 65536 }
{
    match op {
        Instruction::StoreFast { .. }
        | Instruction::Pop
        | Instruction::GetIter
        | Instruction::JumpIfTrue { .. }
        | Instruction::JumpIfFalse { .. }
        | Instruction::SetupWith { .. }
        | Instruction::ReturnValue
        | Instruction::YieldValue
        | Instruction::YieldFrom => 1,
        Instruction::CallFunctionPositional { nargs } => nargs as u32 + 1,
        Instruction::Raise { kind } => raises(kind),
        _ => 0,
    }
}

pub fn gives(op: Instruction) -> u32
    ensures value { result ≡ gives op }
    ensures bound { result ≤ 2 }
{
    match op {
        Instruction::LoadConst { .. }
        | Instruction::LoadFast { .. }
        | Instruction::CallFunctionPositional { .. }
        | Instruction::GetIter
        | Instruction::ForIter { .. }
        | Instruction::YieldValue => 1,
        Instruction::SetupWith { .. } => 2,
        _ => 0,
    }
}

// The net change of depth: from -255 to +1.
#[tactic(auto, unfolding(crate::specs::Effects::effect))]
pub fn effect(op: Instruction) -> i32
    ensures value { result ≡ effect op }
    ensures low_bound { negsuc 65535 ≤ℤ result }
    ensures high_bound { result ≤ℤ pos 2 }
{
    gives(op) as i32 - takes(op) as i32
}

// The depth with which the next instruction is reached.
#[tactic(auto, unfolding(crate::specs::Effects::depth_after))]
pub fn depth_after(depth: u16, op: Instruction) -> i32
    ensures { result ≡ depth_after depth op }
{
    depth as i32 + effect(op)
}

// How many values have to stand on the stack, whatever the level.
pub fn needs(op: Instruction) -> u16
    ensures { result ≡ needs op }
{
    match op {
        Instruction::Reverse { amount } => amount,
        Instruction::WithCleanupStart => 1,
        Instruction::YieldFrom => 2,
        _ => 0,
    }
}
