//! Which call of a device in memory is to fail.
ghost use Rattle.std.specs.Prelude.{◌↔◌, IsTrue};
ghost use Rattle.shb_io.specs.Memory.{IsCallToFail};

/// Whether the call of this number is the one that is to fail.
pub(crate) fn is_call_to_fail(fail_at: Option<u64>, number: u64) -> bool
    ensures { IsTrue result ↔ IsCallToFail fail_at number }
{
    number != u64::MAX && fail_at == Some(number)
}
