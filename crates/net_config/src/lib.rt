// The network text of a Pi: its first zero byte parts the name of the network from its password.
#![tactic(auto)]

ghost use Rattle.std.specs.Prelude.{◌≡◌, ◌+◌, take, drop};
ghost use Rattle.protocol.specs.Stored.{stored};
ghost use Rattle.net_config.specs.Zero.{first_zero};

use protocol::Stored;

// The place of the first zero byte, the text's length if there is none.
fn first_zero(text: &[u8]) -> usize
    ensures { result ≡ first_zero text.now }
{
    text.iter()
        .position(|byte| *byte == 0)
        .unwrap_or(text.len())
}

// The part before the first zero byte.
pub fn before_zero(text: &[u8]) -> Stored
    ensures { result ≡ stored (take (first_zero text.now) text.now) }
{
    let at = first_zero(text);
    Stored::from_slice(&text[..at])
}

// All after the first zero byte, nothing if there is none.
pub fn after_zero(text: &[u8]) -> Stored
    ensures { result ≡ stored (drop (first_zero text.now + 1) text.now) }
{
    let at = first_zero(text);
    if at < text.len() {
        return Stored::from_slice(&text[at + 1..]);
    }
    Stored::empty()
}
