ghost use Rattle.std.specs.Prelude.{◌≡◌, ◌↔◌, bytes_eq, length};

/// Whether two texts are the same, as signatures are compared: where their lengths are the same, each byte is looked at, also
/// behind the first that differs, so that the time doesn't show how much of a wrong signature is right.
pub fn constant_time_eq(first: &[u8], second: &[u8]) -> bool
    ensures { result ≡ bytes_eq first.now second.now }
{
    first.len() == second.len() && differences(first, second) == 0
}

// The bits in which bytes at one place differ, all places together.
fn differences(first: &[u8], second: &[u8]) -> u8
    requires { length first.now ≡ length second.now }
    ensures { (result ≡ 0) ↔ (first.now ≡ second.now) }
{
    let mut differences = 0;
    for index in 0..first.len() {
        differences |= first[index] ^ second[index];
    }
    differences
}
