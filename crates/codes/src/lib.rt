// A root, a vertex and a label in one number: beginnings of words, as reading back and listing keep them.

#![tactic(auto)]

ghost use Rattle.std.specs.Prelude.{◌≡◌, ◌+◌, ◌*◌, ◌/◌, ◌%◌, ◌<◌};
ghost use Rattle.trellis.specs.Bounds.{most_words, most_q};
ghost use Rattle.edges.specs.Inner.Edges.{meant_edge};
ghost use Rattle.codes.specs.Inner.Codes.{code_root, code_vertex, code_label, further_code};

use edges::Edge;
use packed::append;

pub fn root_of(c: u32) -> usize
    ensures { result ≡ code_root c }
{
    (c / 67108864) as usize
}

pub fn vertex_of(c: u32) -> usize
    ensures { result ≡ code_vertex c }
{
    (c / 65536 % 1024) as usize
}

pub fn label_of(c: u32) -> u16
    ensures { result ≡ code_label c }
{
    (c % 65536) as u16
}

// A beginning one step further along an edge.
pub fn further(c: u32, e: Edge) -> u32
    requires { (e.symbol < most_q) × (e.to < most_words) }
    ensures { result ≡ further_code c (meant_edge e) }
{
    let label = append(label_of(c), e.symbol as u16);
    (c / 67108864 * 1024 + (e.to as u32)) * 65536 + u32::from(label)
}
