// Soundness of the store's value.
ghost use Rattle.std.specs.Prelude.{◌≡◌, true, ◌&&◌, ◌≤◌};
ghost use Rattle.state.specs.Checks.{value_of, where_it};
ghost use Rattle.rules.specs.House.{share, longest, most_objects};
ghost use Rattle.rules.specs.Sound.{sound};
ghost use Rattle.state.specs.Model.{rests, model_of};
ghost use Rattle.state.specs.Tests.{limits_in, rules_in, quota_in, boundary_in, flush_in, request_holds};

use crate::running::{plan_fits, sizes_of};
use crate::{Checked, Flush, Regions, State};
use leaves::lengths::class_of;
use rules::house::{LONGEST, OBJECTS};
use sound_limits::limits::limits_hold;
use sound_limits::volumes::within_quota;
use sound_rest::rest::rest_rules;

// No flush runs, and nothing of one is in the value.
#[tactic(auto, unfolding(crate::specs::Model::rests))]
pub fn rests(f: Flush) -> bool
    ensures { result ≡ rests f }
{
    f.boundary == 0 && f.made == 0 && f.deleted == 0 && !f.due
}

// Area, number of objects, names, lengths and volume are in their limits.
#[tactic(auto, using(crate::proofs::Ready::count_few), unfolding(crate::specs::Tests::limits_in))]
fn limits_fit(s: State) -> bool
    ensures { result ≡ limits_in s }
{
    s.count <= OBJECTS
        && limits_hold(
            s.area,
            &s.objects.names[..s.count],
            &s.objects.lens[..s.count],
        )
}

// The rules at rest hold for the first n objects, the deleted length counted.
#[tactic(auto, unfolding(crate::specs::Tests::rules_in))]
fn rules_fit(s: State, n: usize) -> bool
    requires { n ≤ most_objects }
    ensures { result ≡ rules_in s n }
{
    let regions = Regions {
        sizes: sizes_of(s.regions),
        ..s.regions
    };
    rest_rules(
        &regions,
        &s.objects.places[..n],
        &s.objects.lens[..n],
        s.flush.deleted,
    )
}

// The rules at rest hold for the first n objects, and they are within the quota.
#[tactic(auto, unfolding(crate::specs::Tests::quota_in))]
fn start_fits(s: State, n: usize) -> bool
    requires { n ≤ most_objects }
    ensures { result ≡ rules_in s n && quota_in s n }
{
    rules_fit(s, n) && within_quota(s.area, &s.objects.lens[..n], s.flush.deleted)
}

// The boundary is that of a request of this length.
#[tactic(auto, unfolding(crate::specs::Tests::boundary_in))]
fn boundary_fits(s: State, len: u16) -> bool
    ensures { result ≡ boundary_in s len }
{
    s.flush.boundary == s.regions.boundary(class_of(len))
}

// What holds in a flush for a request of this length.
fn flush_fits(s: State, old: usize, len: u16) -> bool
    requires limits { limits_in s ≡ true }
    requires le_count { (old ≤ s.count) × (1 ≤ len) × (len ≤ longest) }
    ensures { result ≡ flush_in s old len }
{
    boundary_fits(s, len) && start_fits(s, old) && plan_fits(s, old)
}

// What holds in a flush, by what its request is.
#[tactic(auto, using(crate::proofs::Ready::count_few, crate::proofs::Ready::length_some), unfolding(crate::specs::Tests::request_holds))]
fn request_fits(s: State) -> bool
    requires { limits_in s ≡ true }
    ensures { result ≡ request_holds s }
{
    let deleted = s.flush.deleted;
    if deleted != 0 {
        return u32::from(deleted) <= LONGEST && flush_fits(s, s.count, deleted);
    }
    if s.count == 0 {
        return false;
    }
    let last = s.count - 1;
    flush_fits(s, last, s.objects.lens[last])
}

// The value is sound.
pub fn sound(s: State) -> bool
    ensures { result ≡ sound share (model_of s) }
{
    limits_fit(s)
        && if rests(s.flush) {
            rules_fit(s, s.count)
        } else {
            request_fits(s)
        }
}

// The value as one that passed, where it does.
pub fn checked(s: State) -> Option<Checked>
    ensures { value_of result ≡ where_it (sound share (model_of s)) s }
{
    if !sound(s) {
        return None;
    }
    Some(Checked { state: s })
}
