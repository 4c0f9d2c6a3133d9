// The words of a usable section, found depth by depth: each beginning goes on along every edge that left its vertex, and since no path of a
// usable section breaks off, more than 1,024 beginnings at any depth are more than 1,024 words.

#![tactic(auto)]

ghost use Rattle.std.specs.Prelude.{◌≡◌, ◌+◌, ◌*◌, ◌≤◌, length, take};
ghost use mathlib.Core.List.{flat_map};
ghost use Rattle.trellis.specs.Bounds.{most_words};
ghost use Rattle.trellis.specs.Lists.{run};
ghost use Rattle.edges.specs.Inner.Edges.{edge_in};
ghost use Rattle.section_file.specs.Inner.View.{Seen};
ghost use Rattle.whole_section.specs.Inner.StepAt.{StepEdges, part_from, StepAt};
ghost use Rattle.codes.specs.Inner.Codes.{code_vertex, grown_codes};
ghost use Rattle.gathering.specs.Inner.Growing.{PutBehind, BeginsAt, Starts, Gathered, FirstLevel, RootCodes};

use codes::{further, vertex_of};
use edges::Step;
use numbers::{number, wide};
use section_file::Section;
use trellis::MOST_WORDS;

// Where the edges of each vertex begin. Going down, the last note of a vertex is its first edge.
fn starts_of(step: Step) -> [u16; MOST_WORDS]
    requires { StepEdges step.pairs.now step.symbols.now step.count }
    ensures { Starts (edge_in step.entry.pairs.now step.entry.symbols.now) step.entry.count result }
{
    let mut starts = [step.count as u16; MOST_WORDS];
    for k in (0..step.count).rev() {
        let e = step.edge_at(k);
        starts[e.from] = k as u16;
    }
    starts
}

// Puts the beginning c, one step further along each edge that left its vertex, behind the first `made` numbers. Answers how many there are
// then, or nothing where they are more than the array has room for.
#[tactic(auto, using(edges::proofs::Reading::edge_small))]
fn grow_one(
    step: Step,
    start: usize,
    c: u32,
    made: usize,
    codes: &mut [u32; MOST_WORDS],
) -> Option<usize>
    requires { StepEdges step.pairs.now step.symbols.now step.count
        × BeginsAt (edge_in step.pairs.now step.symbols.now) step.count (code_vertex c) start
        × (made ≤ most_words) × (length codes.old ≡ most_words) }
    ensures { PutBehind (grown_codes (run (edge_in step.entry.pairs.now step.entry.symbols.now) 0 step.entry.count) c) codes.old made
        codes.new result }
{
    let vertex = vertex_of(c);
    let mut filled = made;
    for k in start..step.count {
        let e = step.edge_at(k);
        if e.from != vertex {
            return Some(filled);
        }
        if filled >= MOST_WORDS {
            return None;
        }
        codes[filled] = further(c, e);
        filled += 1;
    }
    Some(filled)
}

// Puts the first `have` beginnings of `old` one step further.
fn grow(
    step: Step,
    old: &[u32; MOST_WORDS],
    have: usize,
    codes: &mut [u32; MOST_WORDS],
) -> Option<usize>
    requires { StepEdges step.pairs.now step.symbols.now step.count × (have ≤ most_words) × (length old.now ≡ most_words)
        × (length codes.old ≡ most_words) }
    ensures { PutBehind (flat_map (grown_codes (run (edge_in step.entry.pairs.now step.entry.symbols.now) 0 step.entry.count))
        (take have old.now)) codes.old 0 codes.new result }
{
    let starts = starts_of(step);
    let mut made: usize = 0;
    for i in 0..have {
        let c = old[i];
        let start = usize::from(starts[vertex_of(c)]);
        made = grow_one(step, start, c, made, codes)?;
    }
    Some(made)
}

// Puts the first `have` beginnings one step further, along the `count` edges whose pairs and symbols begin at these places.
fn grow_step(
    s: &[u16],
    pairs: usize,
    symbols: usize,
    count: usize,
    have: usize,
    codes: &mut [u32; MOST_WORDS],
) -> Option<usize>
    requires { StepAt s.now pairs symbols count × (have ≤ most_words) × (length codes.old ≡ most_words) }
    ensures { PutBehind (flat_map (grown_codes (run (edge_in (part_from pairs s.now) (part_from symbols s.now)) 0
        count)) (take have codes.old)) codes.old 0 codes.new result }
{
    let old = *codes;
    let step = Step {
        pairs: &s[pairs..],
        symbols: &s[symbols..],
        count,
    };
    grow(step, &old, have, codes)
}

// The vertices of depth 0, each with its root; the roots begin at place `at`.
fn first_level(s: &[u16], at: usize, count: usize, codes: &mut [u32; MOST_WORDS])
    requires { FirstLevel s.now at count × (length codes.old ≡ most_words) }
    ensures { RootCodes s.now at count codes.new }
{
    for v in 0..count {
        codes[v] = (u32::from(s[at + v]) * 1024 + (v as u32)) * 65536;
    }
}

// Finds the section's words, depth by depth: how many they are, if not more than a table has.
pub fn gather(section: Section, codes: &mut [u32; MOST_WORDS]) -> Option<usize>
    requires { Seen section.numbers.now section.view × (length codes.old ≡ most_words) }
    ensures { Gathered section.entry.numbers.now codes.new result }
{
    let s = section.numbers;
    let at = section.view;
    let n = at.n;
    let roots = at.roots;
    let mut have = at.goals - roots;
    first_level(s, roots, have, codes);
    let mut pairs = at.pairs;
    let mut symbols = at.symbols;
    for t in 0..n {
        let count = wide(number(s, 4 + n + t));
        have = grow_step(s, pairs, symbols, count, have, codes)?;
        pairs += 2 * count;
        symbols += count;
    }
    Some(have)
}
