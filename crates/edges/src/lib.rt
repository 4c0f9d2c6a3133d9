// The edges of one step: an edge read, whether all are within bounds, and whether they ascend.

#![tactic(auto)]

ghost use Rattle.std.specs.Prelude.{◌≡◌, ◌+◌, ◌*◌, ◌<◌, length};
ghost use Rattle.trellis.specs.Lists.{all};
ghost use Rattle.edges.specs.Inner.Edges.{inside, above, EdgesThere, edge_in, held_edge};

// An edge: the vertices that it joins and its symbol. Edges are ordered by from, symbol, to, as the fields stand here.
#[derive(Clone, Copy, PartialEq, Eq, PartialOrd, Ord)]
pub struct Edge {
    pub from: usize,
    pub symbol: usize,
    pub to: usize,
}

// The edges of one step: their pairs (from, to) and their symbols, each at the front of a slice, and how many they are.
#[derive(Clone, Copy)]
pub struct Step<'a> {
    pub pairs: &'a [u16],
    pub symbols: &'a [u16],
    pub count: usize,
}

impl<'a> Step<'a> {
    // Edge k, counted from the front of the slices.
    pub fn edge_at(self, k: usize) -> Edge
        requires { (2 * k + 1 < length self.pairs.now) × (k < length self.symbols.now) }
        ensures { result ≡ held_edge (edge_in self.entry.pairs.now self.entry.symbols.now k) }
    {
        Edge {
            from: usize::from(self.pairs[2 * k]),
            symbol: usize::from(self.symbols[k]),
            to: usize::from(self.pairs[2 * k + 1]),
        }
    }

    #[tactic(auto, unfolding(crate::specs::Inner::Edges::inside))]
    fn is_inside(self, k: usize, q: usize, froms: usize, tos: usize) -> bool
        requires { (2 * k + 1 < length self.pairs.now) × (k < length self.symbols.now) }
        ensures { result ≡ inside (edge_in self.entry.pairs.now self.entry.symbols.now) q froms tos k }
    {
        let e = self.edge_at(k);
        e.from < froms && e.to < tos && e.symbol < q
    }

    pub fn all_inside(self, q: usize, froms: usize, tos: usize) -> bool
        requires { EdgesThere self.pairs.now self.symbols.now self.count }
        ensures { result ≡ all (inside (edge_in self.entry.pairs.now self.entry.symbols.now) q froms tos) self.entry.count }
    {
        (0..self.count).all(|k| self.is_inside(k, q, froms, tos))
    }

    // Whether edge k is above the edge before it.
    #[tactic(auto, using(crate::proofs::Reading::first_above))]
    fn is_above(self, k: usize) -> bool
        requires { (2 * k + 1 < length self.pairs.now) × (k < length self.symbols.now) }
        ensures { result ≡ above (edge_in self.entry.pairs.now self.entry.symbols.now) k }
    {
        k == 0 || self.edge_at(k - 1) < self.edge_at(k)
    }

    pub fn all_above(self) -> bool
        requires { EdgesThere self.pairs.now self.symbols.now self.count }
        ensures { result ≡ all (above (edge_in self.entry.pairs.now self.entry.symbols.now)) self.entry.count }
    {
        (0..self.count).all(|k| self.is_above(k))
    }
}
