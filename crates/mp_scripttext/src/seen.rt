ghost use Rattle.std.specs.Prelude.{◌≡◌, ◌+◌, max};
ghost use Rattle.mp_logic.specs.Trees.{counted};

use mp_words::TextErr;

/// What is seen on a walk over strategies that stand side by side: how many nodes they have, how deep the deepest is, and the
/// earliest fault. The counts stop at `2^64 - 1`.
#[derive(Clone, Copy)]
pub(crate) struct Seen {
    pub nodes: u64,
    pub depth: u64,
    pub held: Option<TextErr>,
}

impl Seen {
    /// Nothing is seen yet, and this fault is held.
    pub fn nothing(held: Option<TextErr>) -> Seen
        ensures { result ≡ record { nodes = 0; depth = 0; held = held } }
    {
        Seen {
            nodes: 0,
            depth: 0,
            held,
        }
    }

    /// The same below one node more.
    pub fn below(self) -> Seen
        ensures nodes { result.nodes ≡ counted (1 + self.nodes) }
        ensures depth { result.depth ≡ counted (1 + self.depth) }
        ensures held { result.held ≡ self.held }
    {
        Seen {
            nodes: self.nodes.saturating_add(1),
            depth: self.depth.saturating_add(1),
            held: self.held,
        }
    }

    /// These strategies and then others, seen with the fault of these held.
    pub fn and(self, others: Seen) -> Seen
        ensures nodes { result.nodes ≡ counted (self.nodes + others.nodes) }
        ensures depth { result.depth ≡ max self.depth others.depth }
        ensures held { result.held ≡ others.held }
    {
        Seen {
            nodes: self.nodes.saturating_add(others.nodes),
            depth: self.depth.max(others.depth),
            held: others.held,
        }
    }
}
