// A stack of at most N items in fixed memory.
ghost use Rattle.std.specs.Prelude.{◌≡◌, ◌≤◌, List, [], length, reverse, take};
ghost use Rattle.stacks.specs.Stack.{cut_left, cut_out, placed, push_left, push_out, rest, top_of, written};

use std::marker::Model;

// No room for one more.
#[derive(Clone, Copy, Debug, PartialEq, Eq)]
pub struct Full;

// Fewer items stand than are to be left.
#[derive(Clone, Copy, Debug, PartialEq, Eq)]
pub struct TooFew;

// Kept: an array with a length beside it, since memory is fixed; it stands once, here. The kit's arrayvec writes a blank into
// every place that is left and has its items bottom first.
#[derive(Drop)]
pub struct FixedStack<T: Copy + Default, const N: usize> {
    items: [T; N],
    len: usize,
}

// Clauses see the items that stand, the topmost first.
impl<T: Copy + Default, const N: usize> Model for FixedStack<T, N> {
    ghost Value = { List T };

    ghost view = { λ s. reverse (take s.len s.items) };

    ghost invariant = { λ s. s.len ≤ N };
}

impl<T: Copy + Default, const N: usize> FixedStack<T, N> {
    pub fn new() -> Self
        ensures { result ≡ [] }
    {
        FixedStack {
            items: [T::default(); N],
            len: 0,
        }
    }

    pub fn len(&self) -> usize
        ensures told { result ≡ length self.now }
        ensures most { result ≤ N }
    {
        self.len
    }

    // The items that stand, from the bottom up.
    pub fn items(&self) -> &[T]
        ensures { result.now ≡ reverse self.now }
    {
        &self.items[..self.len]
    }

    // The item at a place, counted from the bottom.
    pub fn get(&self, i: usize) -> Option<T>
        ensures { result ≡ placed i self.now }
    {
        self.items().get(i).copied()
    }

    pub fn push(&mut self, item: T) -> Result<(), Full>
        ensures told { result ≡ push_out N self.old }
        ensures left { self.new ≡ push_left N item self.old }
    {
        // A copy of the length, since `self.len` would be loaded again after the write to the array.
        let at = self.len;
        if at == N {
            return Err(Full);
        }
        self.items[at] = item;
        self.len = at + 1;
        Ok(())
    }

    #[tactic(auto, using(crate::proofs::Standing::rest_reverse))]
    pub fn pop(&mut self) -> Option<T>
        ensures told { result ≡ top_of self.old }
        ensures left { self.new ≡ rest self.old }
    {
        let at = self.len.checked_sub(1)?;
        self.len = at;
        Some(self.items[at])
    }

    pub fn top(&self) -> Option<T>
        ensures { result ≡ top_of self.now }
    {
        self.items().last().copied()
    }

    // Down to a length.
    #[tactic(auto, using(crate::proofs::Standing::lowest_reverse))]
    pub fn cut(&mut self, len: usize) -> Result<(), TooFew>
        ensures told { result ≡ cut_out len self.old }
        ensures left { self.new ≡ cut_left len self.old }
    {
        if self.len < len {
            return Err(TooFew);
        }
        self.len = len;
        Ok(())
    }

    // Changes the topmost item in its place, if there is one.
    pub fn write_top(&mut self, item: T)
        ensures { self.new ≡ written item self.old }
    {
        if let Some(top) = self.items[..self.len].last_mut() {
            *top = item;
        }
    }
}
