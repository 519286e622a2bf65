//! Where a version stands among those by number.
ghost use Rattle.std.specs.Prelude.{◌≡◌, ◌≤◌, length, take, drop};
ghost use Rattle.wm_tree.specs.Versions.{AllBelow, AllFrom, IsTree, newest_first, version_in};

use crate::version::Version;

/// The place of a number among versions by number: how many have a smaller one. It is found by halving.
pub fn place_of(versions: &[Version], number: u64) -> usize
    requires { IsTree (newest_first versions.now) }
    ensures within { result ≤ length versions.now }
    ensures before { AllBelow number (take result versions.now) }
    ensures behind { AllFrom number (drop result versions.now) }
{
    let mut low = 0;
    let mut high = versions.len();
    while low < high {
        let middle = low + (high - low) / 2;
        if versions[middle].number < number {
            low = middle + 1;
        } else {
            high = middle;
        }
    }
    low
}

/// The version of a number.
pub fn find(versions: &[Version], number: u64) -> Option<Version>
    requires { IsTree (newest_first versions.now) }
    ensures { result ≡ version_in (newest_first versions.now) number }
{
    let place = place_of(versions, number);
    if place == versions.len() {
        return None;
    }
    let version = &versions[place];
    if version.number != number {
        return None;
    }
    Some(*version)
}
