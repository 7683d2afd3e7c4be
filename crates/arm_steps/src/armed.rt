// The text that says that a unit is armed.
ghost use Rattle.std.specs.Prelude.{◌≡◌, ◌↔◌, ◌≤◌, ℕ, IsTrue, length};
ghost use Rattle.arm_steps.specs.Armed.{says_armed, behind_capital, CountsAt};
ghost use Rattle.arm_steps.specs.Rules.{Theorem};

use device::search::find;

// Whether the byte before the place is a capital letter, A to Z; before the start there is none.
fn behind_capital(text: &[u8], place: usize) -> bool
    requires { place ≤ length text.now }
    ensures { result ≡ behind_capital text.now place }
{
    place > 0 && text[place - 1].is_ascii_uppercase()
}

/// Whether "ARMED" stands in the text at its start, or behind a byte that is no capital letter: "DISARMED" alone says nothing of the kind. One
/// such occurrence is enough. In seq.rs any occurrence counts.
pub fn says_armed(text: &[u8]) -> bool
    ensures value { result ≡ says_armed text.now }
    ensures counts { IsTrue result ↔ ((i : ℕ) × CountsAt text.now i) }
{
    let mut from = 0;
    while let Some(at) = find(&text[from..], b"ARMED") {
        let place = from + at;
        if !behind_capital(text, place) {
            return true;
        }
        from = place + 1;
    }
    false
}

/// The rule for the armed text and that of seq.rs say the same of each text on which they don't differ; and they differ on those in which
/// "ARMED" stands, each time behind a capital letter, and no "CANCELLED".
pub fn rules_agree()
    ensures { Theorem }
{}
