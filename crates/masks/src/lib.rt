// The masks of a path's words: for each block the unerased symbols in which its word differs from what was received.

#![tactic(auto)]

ghost use Rattle.std.specs.Prelude.{length};
ghost use Rattle.masks.specs.Inner.Masks.{MasksAsked, MasksPut};

// The masks of a path's labels against what was received, one for each received label.
pub fn put_masks(received: &[u16], erased: &[u8], labels: &[u16], masks: &mut [u8])
    requires { MasksAsked received.now erased.now labels.now masks.old }
    ensures { MasksPut received.now erased.now labels.now masks.old masks.new
        (length received.now) }
{
    for b in 0..received.len() {
        masks[b] = comparing::compare(received[b], labels[b], erased[b]).mask;
    }
}
