// Sums of bytes.
ghost use Rattle.std.specs.Prelude.{◌≡◌, ◌≤◌, length, sum};
ghost use Rattle.rules.specs.House.{most_area};
ghost use Rattle.desks.specs.Desks.{weight_from};

// The sum of some bytes.
pub fn sum_of(bytes: &[u8]) -> u64
    requires { length bytes.now ≤ most_area }
    ensures { result ≡ sum bytes.now }
{
    bytes.iter().map(|b| u64::from(*b)).sum()
}

// The sum of (index + 1) x byte.
pub fn weight_of(bytes: &[u8]) -> u64
    requires { length bytes.now ≤ most_area }
    ensures { result ≡ weight_from 1 bytes.now }
{
    let mut total = 0;
    for (i, b) in bytes.iter().enumerate() {
        total += (i as u64 + 1) * u64::from(*b);
    }
    total
}
