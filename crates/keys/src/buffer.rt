// Writing to a lent buffer.
ghost use Rattle.std.specs.Prelude.{◌≡◌, ◌≤◌, true, ◌++◌, length, take, drop};
ghost use Rattle.digests.specs.Strings.{same};

// Writes bytes to the front, and leaves what stands behind them.
pub(crate) fn put_front(out: &mut [u8], bytes: &[u8])
    requires { length bytes.now ≤ length out.old }
    ensures buffer { out.new ≡ bytes.now ++ drop (length bytes.now) out.old }
    ensures front { same (take (length bytes.now) out.new) bytes.now ≡ true }
{
    out[..bytes.len()].copy_from_slice(bytes);
}
