//! Octets that are held until they are taken (`drop_first`).

ghost use Rattle.std.specs.Prelude.{◌≡◌, ◌≤◌, length, drop};

use arrayvec::ArrayVec;

/// Drops the first octets held, which were taken.
pub fn drop_first<const N: usize>(held: &mut ArrayVec<u8, N>, len: usize)
    requires { len ≤ length held.old.items }
    ensures { held.new.items ≡ drop len held.old.items }
{
    let mut rest = ArrayVec::new();
    let _ = rest.try_extend_from_slice(&held.as_slice()[len..]);
    *held = rest;
}
