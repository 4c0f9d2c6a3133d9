// The frame of a chain and fault 9: a length or a state that is out of bounds, else the first bad block.

#![tactic(auto)]

ghost use Rattle.std.specs.Prelude.{◌≡◌, List, ℕ, length, IfOk};
ghost use Rattle.trellis.specs.Lists.{first, found_below};
ghost use Rattle.sections.specs.Inner.Found.{SectionsFound, AllFound};
ghost use Rattle.frame.specs.Frame.{frame, frame_bad, block_bad};
ghost use Rattle.frame.specs.Inner.Checked.{Views, Tested, FrameChecked};

use numbers::is_within;
use section_file::View;
use sections::Found;
use trellis::{MOST_BLOCKS, MOST_SECTIONS};

// A frame without fault 9, over sections without fault 8, which are found.
#[derive(Clone, Copy)]
pub struct CheckedFrame<'a> {
    pub sections: &'a [u16],
    pub found: &'a Found,
    pub k: usize,
    pub indices: &'a [u8],
    pub received: &'a [u16],
    pub erased: &'a [u8],
    pub start: u8,
    pub end: u8,
    ghost checked: { FrameChecked (frame sections.now k indices.now received.now erased.now start end) found.now.starts found.now.views },
}

// The bound on states in the width of a state.
const MOST_STATES: u8 = trellis::MOST_STATES as u8;

pub fn frame_bad(indices: &[u8], received: &[u16], erased: &[u8], start: u8, end: u8) -> bool
    ensures { (sections : List ℕ) (k : ℕ)
        → result ≡ frame_bad (frame sections k indices.now received.now erased.now start end) }
{
    if !is_within(1, MOST_BLOCKS, indices.len()) {
        return true;
    }
    if received.len() != indices.len() {
        return true;
    }
    if erased.len() != indices.len() {
        return true;
    }
    if start >= MOST_STATES {
        return true;
    }
    end >= MOST_STATES
}

// The first bad block.
pub fn first_bad(
    views: &[View; MOST_SECTIONS],
    k: usize,
    indices: &[u8],
    received: &[u16],
    erased: &[u8],
) -> Option<usize>
    requires { Views views.now k × (length received.now ≡ length indices.now) × (length erased.now ≡ length indices.now) }
    ensures { (sections starts : List ℕ) (start end : ℕ) → SectionsFound sections starts views.now k
        → result ≡ found_below (length indices.now)
        (first (block_bad (frame sections k indices.now received.now erased.now start end)) (length indices.now)) }
{
    for b in 0..indices.len() {
        let i = usize::from(indices[b]);
        if i >= k {
            return Some(b);
        }
        let at = views[i];
        if !received::fits(at.q, at.n, received[b], erased[b]) {
            return Some(b);
        }
    }
    None
}

// The frame, where there is no fault 9. Else the error is the number that the fault returns: the number of blocks where a length or a
// state is out of bounds, else the first bad block.
pub fn checked<'a>(
    sections: &'a [u16],
    found: &'a Found,
    k: usize,
    indices: &'a [u8],
    received: &'a [u16],
    erased: &'a [u8],
    start: u8,
    end: u8,
) -> Result<CheckedFrame<'a>, usize>
    requires { AllFound sections.now found.now.starts found.now.views k }
    ensures { let asked = frame sections.now k indices.now received.now erased.now start end in
        Tested asked result
        × IfOk result (λ f. frame f.sections.now f.k f.indices.now f.received.now f.erased.now f.start f.end ≡ asked) }
{
    if frame_bad(indices, received, erased, start, end) {
        return Err(indices.len());
    }
    if let Some(bad) = first_bad(&found.views, k, indices, received, erased) {
        return Err(bad);
    }
    Ok(CheckedFrame {
        sections,
        found,
        k,
        indices,
        received,
        erased,
        start,
        end,
    })
}
