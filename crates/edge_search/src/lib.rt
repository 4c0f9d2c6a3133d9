// The first edge that leaves a vertex, among the edges of a step, which stand in the order of their vertices.

#![tactic(auto)]

ghost use Rattle.std.specs.Prelude.{◌≡◌, ◌+◌, ◌*◌, ◌<◌, ◌≤◌, length, get_or};
ghost use Rattle.trellis.specs.Bounds.{most_words, most_symbols};
ghost use Rattle.edge_search.specs.Inner.FirstEdge.{FromsRise, FirstFrom, is_first};

// The first of a step's edges that leaves the vertex or a later one, found by halves. The pairs lie one behind another in one list, and a
// search of the library over parts of it would be no plainer than this `while`.
fn search_edge(pairs: &[u16], count: usize, vertex: usize) -> usize
    requires { FromsRise pairs.now count }
    ensures { FirstFrom (λ j. get_or pairs.now (2 * j) 0) count vertex result }
{
    let mut low: usize = 0;
    let mut high = count;
    while low < high {
        let middle = (low + high) / 2;
        if usize::from(pairs[2 * middle]) < vertex {
            low = middle + 1;
        } else {
            high = middle;
        }
    }
    low
}

// Whether the edge at a place is the first that leaves the vertex or a later one.
fn is_first(pairs: &[u16], count: usize, place: usize, vertex: usize) -> bool
    requires { FromsRise pairs.now count }
    ensures { result ≡ is_first (λ j. get_or pairs.now (2 * j) 0) count vertex place }
{
    if place >= count {
        return false;
    }
    usize::from(pairs[2 * place]) >= vertex
        && (place == 0 || usize::from(pairs[2 * (place - 1)]) < vertex)
}

// The first of a step's edges that leaves the vertex or a later one. Where as many edges leave each vertex, as in every linear code, its
// place follows from the vertex; elsewhere it is searched for.
pub fn first_edge(pairs: &[u16], count: usize, each: usize, vertex: usize) -> usize
    requires { FromsRise pairs.now count × (each ≤ most_words) × (vertex < most_words) }
    ensures { FirstFrom (λ j. get_or pairs.now (2 * j) 0) count vertex result }
{
    let guess = vertex * each;
    if is_first(pairs, count, guess, vertex) {
        return guess;
    }
    search_edge(pairs, count, vertex)
}

// How many edges leave each vertex of depth t, where as many leave each.
pub fn edges_each(l: &[u16], t: usize, edges: usize) -> usize
    requires { (t < most_symbols) × (3 + t < length l.now) × (0 < get_or l.now (3 + t) 0) × (edges ≤ most_words) }
    ensures { result ≤ most_words }
{
    edges / usize::from(l[3 + t])
}
