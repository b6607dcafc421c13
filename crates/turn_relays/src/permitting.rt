//! Permissions of one relayed address (RFC 8656, section 9).

ghost use Rattle.std.specs.Prelude.{◌≡◌, ◌+◌, ◌<◌, ◌≤◌, ◌^◌, ◌==◌, length, filter, true, false};
ghost use Rattle.turn_machine.specs.Relays.{seconds};
ghost use Rattle.turn_machine.specs.Rows.{with_permission_for, with_permissions, is_other_permission};
ghost use Rattle.turn_relays.specs.Granted.{AreDistinct};

use arrayvec::ArrayVec;
use stun_endpoints::{Endpoint, Ip};
use turn_machine::Permission;

/// How long a permission lasts that a CreatePermission request installs, in seconds.
const LASTING: u32 = 300;

/// Leaves the permissions of other addresses that haven't expired.
fn clear<const P: usize>(permissions: &mut ArrayVec<Permission, P>, now: u128, ip: Ip)
    ensures { permissions.new.items ≡ filter (is_other_permission now ip) permissions.old.items }
{
    permissions.retain(|p| !(ip == p.ip) && now < p.expires_at);
}

/// Inserts a permission in front, which lasts so many seconds, and removes those that have expired. Returns
/// whether there is room.
pub(crate) fn put<const P: usize>(
    permissions: &mut ArrayVec<Permission, P>,
    now: u128,
    ip: Ip,
    lasting: u32,
) -> bool
    requires { now + seconds lasting < 2 ^ 128 }
    ensures done { result ≡ true
        → permissions.new.items ≡ with_permission_for lasting now ip permissions.old.items }
    ensures fits { result ≡ true → length permissions.new.items ≤ P }
    ensures full { result ≡ false
        → P < length (with_permission_for lasting now ip permissions.old.items) }
{
    clear(permissions, now, ip);
    if permissions.is_full() {
        return false;
    }
    permissions.insert(
        0,
        Permission {
            ip,
            expires_at: now + lasting as u128 * 1_000_000_000,
        },
    );
    true
}

/// Inserts permissions for the peers of a family, the last first. Returns whether there is room.
pub(crate) fn put_all<const P: usize>(
    permissions: &mut ArrayVec<Permission, P>,
    now: u128,
    family: u8,
    peers: &[Endpoint],
) -> bool
    requires time { now + seconds 300 < 2 ^ 128 }
    requires distinct { AreDistinct permissions.old.items }
    requires room { length permissions.old.items ≤ P }
    ensures done { result ≡ true → permissions.new.items
        ≡ with_permissions now (filter (λ peer. peer.ip.family == family) peers.now) permissions.old.items }
    ensures fits { result ≡ true → length permissions.new.items ≤ P }
    ensures full { result ≡ false → P < length
        (with_permissions now (filter (λ peer. peer.ip.family == family) peers.now) permissions.old.items) }
{
    let mut at = peers.len();
    while at > 0 {
        at -= 1;
        let ip = peers[at].ip;
        if ip.family != family {
            continue;
        }
        if !put(permissions, now, ip, LASTING) {
            return false;
        }
    }
    true
}

/// A copy of the permissions.
pub(crate) fn copy_of<const P: usize>(
    permissions: &ArrayVec<Permission, P>,
) -> ArrayVec<Permission, P>
    ensures same { result.items ≡ permissions.now.items }
    ensures fits { length result.items ≤ P }
{
    let mut copy = ArrayVec::new();
    if copy.try_extend_from_slice(permissions).is_err() {
        unreachable!();
    }
    copy
}
