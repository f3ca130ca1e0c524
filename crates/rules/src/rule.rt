// What the rules demand: a case for each, with what was expected and found where it is broken.
use table::records::NodeKind;

// How control comes to an instruction: as the frame's first, from the one before, or by a jump.
#[derive(Clone, Copy, Debug, PartialEq, Eq)]
pub enum Way {
    Start,
    Next,
    Target,
}

// Whose node a rule speaks of: the instruction's own, the one that it puts up, or that of a node's handler.
#[derive(Clone, Copy, Debug, PartialEq, Eq)]
pub enum Whose {
    Own,
    Child,
    Handler,
}

#[derive(Clone, Copy, Debug, PartialEq, Eq)]
pub enum Rule {
    // a node's kind is one of the five
    KnownKind {
        found: NodeKind,
    },
    // a node's end is 0, or in a Finally and a FinallyHandler also 1
    EndListed {
        most: u8,
        found: u8,
    },
    // a node's parent has a lower number
    ParentBelow {
        number: usize,
        found: u16,
    },
    // a node's level is not below its parent's
    LevelFromParent {
        least: u16,
        found: u16,
    },
    // a node's level is within the maximum depth
    LevelWithinMaximum {
        most: u16,
        found: u16,
    },
    // at most 32 nodes lead to the bottom
    NodesToBottom,
    // a node's handler is an instruction
    HandlerExists {
        instructions: usize,
        found: u16,
    },
    // a Loop, a FinallyHandler and an ExceptHandler have no handler
    NoHandler {
        found: u16,
    },
    // a handler begins with the depth that unwinding leaves
    HandlerDepth {
        expected: u32,
        found: u16,
    },
    // that depth is within the maximum
    HandlerWithinMaximum {
        most: u16,
        found: u32,
    },
    // a node has the kind, end, parent, level or handler that is wanted there
    Kind {
        whose: Whose,
        expected: NodeKind,
        found: NodeKind,
    },
    End {
        whose: Whose,
        expected: u8,
        found: u8,
    },
    Parent {
        whose: Whose,
        expected: u16,
        found: u16,
    },
    Level {
        whose: Whose,
        expected: u16,
        found: u16,
    },
    Handler {
        whose: Whose,
        expected: u16,
        found: u16,
    },
    // an instruction is one of the listed ones
    Decodes,
    // an instruction's node exists
    NodeExists {
        nodes: usize,
        found: u16,
    },
    // a depth is not below the level of its node
    DepthFromLevel {
        least: u16,
        found: u16,
    },
    // a depth is within the maximum
    DepthWithinMaximum {
        most: u16,
        found: u16,
    },
    // what is taken stands above the level
    TakesAboveLevel {
        level: u16,
        takes: u32,
        found: u16,
    },
    // so many values stand on the stack
    ValuesNeeded {
        least: u16,
        found: u16,
    },
    // control comes to an instruction that exists, with its depth and its node
    Exists {
        way: Way,
        instructions: usize,
        to: usize,
    },
    Depth {
        way: Way,
        expected: i32,
        found: u16,
    },
    Node {
        way: Way,
        expected: u16,
        found: u16,
    },
    // PopBlock removes a Loop, a TryExcept or a Finally
    Removable {
        found: NodeKind,
    },
    // one value below the level is still not below the parent's level
    AboveParent {
        least: u16,
        found: u16,
    },
    // a Loop stands, for a break or a continue
    LoopStands,
}
