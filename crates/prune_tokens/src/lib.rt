// The tokens of a value, as scans find them; and the offset that a token names.
#![tactic(auto)]

ghost use Rattle.std.specs.Prelude.{◌≡◌, ◌-◌, ◌<◌};
ghost use Rattle.error.specs.Error.{LIMIT};

// The offset that a reference or pointer with the number n at the offset `at` names; 0 if that would be below 0.
pub fn target(at: usize, n: u64) -> u32
    requires { at < LIMIT }
    ensures { (result ≡ at - n - 1) × (result < LIMIT) }
{
    (at as u64).saturating_sub(n).saturating_sub(1) as u32
}
