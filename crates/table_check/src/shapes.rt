// The rules of an instruction: its shape, what it takes and needs, and where it leads.
ghost use Rattle.std.specs.Prelude.{◌≡◌, ◌+◌};
ghost use Rattle.rules.specs.Arrivals.{arrives, opens};
ghost use Rattle.rules.specs.Effects.{depth_after};
ghost use Rattle.table_check.specs.Shapes.{affords, breaks, checking_instruction, continues, ends_finally, enters_finally, finishes_cleanup, for_iter, jump_if, jumps, leads, leaves, next, pops_block, pops_exception, removable, sets_up_except, sets_up_finally, sets_up_loop, stands, starts_cleanup, starts};
ghost use Rattle.table.specs.Tables.{parts};

use crate::sites::Site;
use rules::arrivals::{arrives, opens_at};
use rules::climbing::climb;
use rules::effects::{needs, takes};
use rules::reading::node_for;
use rules::rule::{Rule, Way};
use table::demands::demand;
use table::instructions::Instruction;
use table::records::{Node, NodeKind, Shape};
use table::tables::Table;

fn removable(kind: NodeKind) -> bool
    ensures { result ≡ removable kind }
{
    matches!(
        kind,
        NodeKind::Loop | NodeKind::TryExcept | NodeKind::Finally
    )
}

// Where `inline(always)` stands, a call would have the site laid out in memory first, which costs more than what it then does.
impl Site<'_> {
    // The first instruction begins with an empty stack and no block.
    #[tactic(auto, unfolding(crate::specs::Shapes::starts))]
    fn starts(&self) -> Result<(), Rule>
        ensures { result ≡ starts (parts self.now.table.now) self.now.at }
    {
        if self.at == 0 {
            arrives(self.table, Way::Start, 0, 0, 0)
        } else {
            Ok(())
        }
    }

    // The node exists, and the depth lies from its level to the maximum.
    #[tactic(auto, unfolding(crate::specs::Shapes::stands))]
    fn stands(&self) -> Result<(), Rule>
        ensures { result ≡ stands (parts self.now.table.now) self.now.shape }
    {
        let Shape { depth, node } = self.shape;
        let nodes = self.table.node_count();
        demand(
            node as usize <= nodes,
            Rule::NodeExists { nodes, found: node },
        )?;
        let least = self.own.node.level;
        demand(
            least <= depth,
            Rule::DepthFromLevel {
                least,
                found: depth,
            },
        )?;
        let most = self.table.maximum_depth();
        demand(
            depth <= most,
            Rule::DepthWithinMaximum { most, found: depth },
        )
    }

    // What is taken stands above the level, and as many values stand as are needed.
    #[tactic(auto, unfolding(crate::specs::Shapes::affords))]
    fn affords(&self) -> Result<(), Rule>
        ensures { result ≡ affords (parts self.now.table.now) self.now.shape self.now.op }
    {
        let found = self.shape.depth;
        let level = self.own.node.level;
        let takes = takes(self.op);
        demand(
            level as u32 + takes <= found as u32,
            Rule::TakesAboveLevel {
                level,
                takes,
                found,
            },
        )?;
        let least = needs(self.op);
        demand(least <= found, Rule::ValuesNeeded { least, found })
    }

    // The next instruction has this depth and stands in this node.
    fn follows(&self, depth: i32, node: u16) -> Result<(), Rule>
        ensures { result ≡ arrives (parts self.now.table.now) Way.Next (self.now.at + 1) depth node }
    {
        arrives(self.table, Way::Next, self.at + 1, depth, node)
    }

    // The target has this depth and stands in this node.
    fn lands(&self, target: u16, depth: i32, node: u16) -> Result<(), Rule>
        ensures { result ≡ arrives (parts self.now.table.now) Way.Target target depth node }
    {
        arrives(self.table, Way::Target, target as usize, depth, node)
    }

    // The next instruction keeps the node, with the depth that the effect leaves.
    #[tactic(auto, unfolding(crate::specs::Shapes::next))]
    #[inline(always)]
    fn next(&self) -> Result<(), Rule>
        ensures { result ≡ next (parts self.now.table.now) self.now.at self.now.shape self.now.op }
    {
        self.follows(self.depth_after(), self.shape.node)
    }

    // The target keeps the node, with the depth that the effect leaves.
    #[tactic(auto, unfolding(crate::specs::Shapes::jumps))]
    #[inline(always)]
    fn jumps(&self, target: u16) -> Result<(), Rule>
        ensures { result ≡ jumps (parts self.now.table.now) self.now.shape self.now.op target }
    {
        self.lands(target, self.depth_after(), self.shape.node)
    }

    #[tactic(auto, unfolding(crate::specs::Shapes::jump_if))]
    fn jump_if(&self, target: u16) -> Result<(), Rule>
        ensures { result ≡ jump_if (parts self.now.table.now) self.now.at self.now.shape self.now.op target }
    {
        self.next()?;
        self.jumps(target)
    }

    // The iterator stays for the next item; the target is reached without it.
    #[tactic(auto, unfolding(crate::specs::Shapes::for_iter))]
    fn for_iter(&self, target: u16) -> Result<(), Rule>
        ensures { result ≡ for_iter (parts self.now.table.now) self.now.at self.now.shape self.now.op target }
    {
        let found = self.shape.depth;
        let level = self.own.node.level;
        demand(
            level < found,
            Rule::TakesAboveLevel {
                level,
                takes: 1,
                found,
            },
        )?;
        self.next()?;
        self.lands(target, found as i32 - 1, self.shape.node)
    }

    // The next instruction stands in a child node of this kind, with the depth that the effect leaves.
    #[inline(always)]
    fn opens(&self, kind: NodeKind) -> Result<(), Rule>
        ensures { result ≡ opens (parts self.now.table.now) self.now.at self.now.shape kind (depth_after self.now.shape.depth self.now.op) }
    {
        opens_at(
            self.table,
            self.at + 1,
            self.shape,
            kind,
            self.depth_after(),
        )
    }

    #[tactic(auto, unfolding(crate::specs::Shapes::sets_up_loop))]
    fn setup_loop(&self) -> Result<(), Rule>
        ensures { result ≡ sets_up_loop (parts self.now.table.now) self.now.at self.now.shape self.now.op }
    {
        self.opens(NodeKind::Loop)
    }

    #[tactic(auto, unfolding(crate::specs::Shapes::sets_up_except))]
    fn setup_except(&self, handler: u16) -> Result<(), Rule>
        ensures { result ≡ sets_up_except (parts self.now.table.now) self.now.at self.now.shape self.now.op handler }
    {
        self.opens(NodeKind::TryExcept)?;
        self.child().has_handler(handler)
    }

    // SetupFinally puts up a Finally of end 0, SetupWith one of end 1.
    #[tactic(auto, unfolding(crate::specs::Shapes::sets_up_finally))]
    #[inline(always)]
    fn setup_finally(&self, end: u8, handler: u16) -> Result<(), Rule>
        ensures { result ≡ sets_up_finally (parts self.now.table.now) self.now.at self.now.shape self.now.op end handler }
    {
        self.opens(NodeKind::Finally)?;
        let child = self.child();
        child.has_end(end)?;
        child.has_handler(handler)
    }

    #[tactic(auto, unfolding(crate::specs::Shapes::enters_finally))]
    fn enter_finally(&self, end: u8) -> Result<(), Rule>
        ensures { result ≡ enters_finally (parts self.now.table.now) self.now.at self.now.shape self.now.op end }
    {
        self.opens(NodeKind::FinallyHandler)?;
        self.child().has_end(end)
    }

    // The block is gone: the next instruction stands in the parent, at the block's level.
    #[tactic(auto, unfolding(crate::specs::Shapes::leaves))]
    fn leaves(&self) -> Result<(), Rule>
        ensures { result ≡ leaves (parts self.now.table.now) self.now.at self.now.own.node }
    {
        self.follows(self.own.node.level as i32, self.own.node.parent)
    }

    #[tactic(auto, unfolding(crate::specs::Shapes::ends_finally))]
    fn end_finally(&self) -> Result<(), Rule>
        ensures { result ≡ ends_finally (parts self.now.table.now) self.now.at self.now.own.node }
    {
        self.own.has_kind(NodeKind::FinallyHandler)?;
        self.own.has_end(0)?;
        self.leaves()
    }

    #[tactic(auto, unfolding(crate::specs::Shapes::starts_cleanup))]
    fn with_cleanup_start(&self) -> Result<(), Rule>
        ensures { result ≡ starts_cleanup (parts self.now.table.now) self.now.at self.now.shape self.now.op self.now.own.node }
    {
        self.own.has_kind(NodeKind::FinallyHandler)?;
        self.next()
    }

    // The exit below the level goes too: one value less, still not below the parent's level.
    #[tactic(auto, unfolding(crate::specs::Shapes::finishes_cleanup))]
    fn with_cleanup_finish(&self) -> Result<(), Rule>
        ensures { result ≡ finishes_cleanup (parts self.now.table.now) self.now.at self.now.own.node }
    {
        self.own.has_kind(NodeKind::FinallyHandler)?;
        self.own.has_end(1)?;
        let Node { parent, level, .. } = self.own.node;
        let least = node_for(self.table, parent as usize).level;
        demand(
            least < level,
            Rule::AboveParent {
                least,
                found: level,
            },
        )?;
        self.follows(level as i32 - 1, parent)
    }

    #[tactic(auto, unfolding(crate::specs::Shapes::pops_block))]
    fn pop_block(&self) -> Result<(), Rule>
        ensures { result ≡ pops_block (parts self.now.table.now) self.now.at self.now.own.node }
    {
        let found = self.own.node.kind;
        demand(removable(found), Rule::Removable { found })?;
        self.leaves()
    }

    #[tactic(auto, unfolding(crate::specs::Shapes::pops_exception))]
    fn pop_exception(&self) -> Result<(), Rule>
        ensures { result ≡ pops_exception (parts self.now.table.now) self.now.at self.now.own.node }
    {
        self.own.has_kind(NodeKind::ExceptHandler)?;
        self.leaves()
    }

    // The nearest Loop goes: its target stands in the Loop's parent, at the Loop's level.
    #[tactic(auto, unfolding(crate::specs::Shapes::breaks))]
    fn break_loop(&self, target: u16) -> Result<(), Rule>
        ensures { result ≡ breaks (parts self.now.table.now) self.now.shape target }
    {
        let landing = climb(self.table, self.shape.node, self.shape.depth);
        let number = landing.node.ok_or(Rule::LoopStands)?;
        let found = node_for(self.table, number as usize);
        self.lands(target, found.level as i32, found.parent)
    }

    // The nearest Loop stays, and the blocks above it go.
    #[tactic(auto, unfolding(crate::specs::Shapes::continues))]
    fn continue_loop(&self, target: u16) -> Result<(), Rule>
        ensures { result ≡ continues (parts self.now.table.now) self.now.shape target }
    {
        let landing = climb(self.table, self.shape.node, self.shape.depth);
        let number = landing.node.ok_or(Rule::LoopStands)?;
        self.lands(target, landing.depth, number)
    }

    // Where an instruction leads.
    // Kept: a match, and no closures: it is checked to have every instruction, and each arm takes the operands of its own.
    #[tactic(auto, unfolding(crate::specs::Shapes::leads))]
    fn leads(&self) -> Result<(), Rule>
        ensures { result ≡ leads (parts self.now.table.now) self.now.at self.now.shape self.now.op }
    {
        match self.op {
            Instruction::LoadConst { .. }
            | Instruction::LoadFast { .. }
            | Instruction::StoreFast { .. }
            | Instruction::Pop
            | Instruction::Reverse { .. }
            | Instruction::CallFunctionPositional { .. }
            | Instruction::GetIter
            | Instruction::YieldValue
            | Instruction::YieldFrom => self.next(),
            Instruction::ForIter { target } => self.for_iter(target),
            Instruction::Jump { target } => self.jumps(target),
            Instruction::JumpIfTrue { target } | Instruction::JumpIfFalse { target } =>
                self.jump_if(target),
            Instruction::SetupLoop => self.setup_loop(),
            Instruction::SetupExcept { handler } => self.setup_except(handler),
            Instruction::SetupFinally { handler } => self.setup_finally(0, handler),
            Instruction::EnterFinally { end } => self.enter_finally(end),
            Instruction::EndFinally => self.end_finally(),
            Instruction::SetupWith { end } => self.setup_finally(1, end),
            Instruction::WithCleanupStart => self.with_cleanup_start(),
            Instruction::WithCleanupFinish => self.with_cleanup_finish(),
            Instruction::PopBlock => self.pop_block(),
            Instruction::PopException => self.pop_exception(),
            Instruction::Break { target } => self.break_loop(target),
            Instruction::Continue { target } => self.continue_loop(target),
            Instruction::Raise { .. }
            | Instruction::ReturnValue
            | Instruction::ReturnConst { .. } => Ok(()),
        }
    }
}

// The first rule that an instruction breaks.
#[tactic(auto, unfolding(crate::specs::Shapes::checking_instruction))]
pub fn check_instruction(table: &Table<'_>, at: usize) -> Result<(), Rule>
    ensures { result ≡ checking_instruction (parts table.now) at }
{
    let site = Site::new(table, at).ok_or(Rule::Decodes)?;
    site.starts()?;
    site.stands()?;
    site.affords()?;
    site.leads()
}
