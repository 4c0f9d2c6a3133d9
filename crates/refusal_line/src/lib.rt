// The line of a refusal, put into a lent buffer as far as it has room for it.

#![tactic(auto)]

ghost use Rattle.std.specs.Prelude.{◌-◌, ◌≤◌};
ghost use Rattle.trellis.specs.Outcome.{Outcome};
ghost use Rattle.outcomes.specs.Inner.Holds.{Holds};
ghost use Rattle.text.specs.Inner.Put.{Put};
ghost use Rattle.lines.specs.Text.{refusal_line};

use outcomes::Returned;
use text::put_line;

// The line of a refusal: its number, and the numbers returned with it.
pub fn put_refusal(text: &mut [u8], refusal: Returned) -> usize
    requires { refusal.count ≤ 4 }
    ensures { (o : Outcome) → Holds o refusal.number refusal.count refusal.values
        → Put text.old 0 (refusal_line o) text.new result }
{
    let values = refusal.values;
    let numbers = [
        refusal.number as usize,
        values[0],
        values[1],
        values[2],
        values[3],
    ];
    put_line(text, 0, b"refused", &numbers[..1 + refusal.count])
}
