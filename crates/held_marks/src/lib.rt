// The grounded marks as a caller holds them, there and back.
#![tactic(auto)]

ghost use Rattle.std.specs.Prelude.{◌≡◌};
ghost use Rattle.held.specs.Held.{marks_in, marks_out};

// Which nodes are grounded: those whose byte is not 0.
pub fn marks_in(z: &[u8; 64]) -> [bool; 64]
    ensures { result ≡ marks_in z.now }
{
    z.map(|byte| byte != 0)
}

// 1 for each node that is grounded, 0 for the others.
pub fn marks_out(z: &[bool; 64]) -> [u8; 64]
    ensures { result ≡ marks_out z.now }
{
    z.map(|mark| mark as u8)
}
