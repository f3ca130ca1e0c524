// A stack in fixed memory: FixedStack<T, N> holds at most N items, in an array and a length, and clauses see the list of its
// items, the topmost first. A push on a full one is refused with Full, a cut to more than stand with TooFew.
// The levels of exceptions below the last one, and the values and blocks of a frame, are such stacks.
// It rests on nothing but the standard library; specs/Stack.antt says what each call answers and leaves.
// Its page is docs/frame.md.
#![tactic(auto)]

pub mod stack;
