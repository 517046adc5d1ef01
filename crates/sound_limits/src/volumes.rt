// The volume of the live objects, whole and by class, and its quota.
ghost use Rattle.std.specs.Prelude.{◌≡◌, List, ℕ, ◌≤◌, ◌<◌, ◌*◌, length};
ghost use Rattle.rules.specs.Words.{word_values};
ghost use Rattle.rules.specs.House.{share};
ghost use Rattle.rules.specs.Classes.{volume, volume_of};
ghost use Rattle.rules.specs.Regions.{col, column};
ghost use Rattle.rules.specs.Columns.{listed};
ghost use Rattle.rules.specs.Sound.{within_quota, live_at};
ghost use Rattle.sound_limits.specs.Limits.{counted};

use leaves::lengths::{class_of, quota, sum_of};
use rules::house::COLUMN;

// The volume of the objects.
pub fn volume(lens: &[u16]) -> u64
    requires { length lens.now < word_values }
    ensures { (names places : List ℕ) → result ≡ volume (listed names places lens.now 0 (length lens.now)) }
{
    sum_of(lens)
}

// The volume is within the quota of the area, a deleted length counted.
pub fn within_quota(area: u32, lens: &[u16], deleted: u16) -> bool
    requires { length lens.now < word_values }
    ensures { (names places : List ℕ) → result ≡ within_quota share area (listed names places lens.now 0 (length lens.now)) deleted }
{
    volume(lens) + u64::from(deleted) <= u64::from(quota(area))
}

// A length is counted to the volume of its class, one of a class beyond the column's end to none.
fn count(volumes: &mut [u64], len: u16)
    requires { (c : ℕ) → col volumes.old c ≤ 4294967296 }
    ensures { volumes.new ≡ counted volumes.old len }
{
    let class = usize::from(class_of(len));
    if class < volumes.len() {
        volumes[class] += u64::from(len);
    }
}

// The volume of each class.
pub fn volumes(lens: &[u16]) -> [u64; COLUMN]
    requires { length lens.now < word_values }
    ensures value { (names places : List ℕ) → result ≡ column (λ c. volume_of c (listed names places lens.now 0 (length lens.now))) }
    ensures bounded { (c : ℕ) → col result c ≤ word_values * length lens.now }
{
    let mut out = [0u64; COLUMN];
    for len in lens {
        count(&mut out, *len);
    }
    out
}

// The live volume of each class, a deleted length counted.
pub fn live_volumes(lens: &[u16], deleted: u16) -> [u64; COLUMN]
    requires { length lens.now < word_values }
    ensures value { (names places : List ℕ) → result ≡ column (live_at (listed names places lens.now 0 (length lens.now)) deleted) }
    ensures bounded { (c : ℕ) → col result c ≤ 4294967296 }
{
    let mut out = volumes(lens);
    count(&mut out, deleted);
    out
}
