//! The headline, applied to what both ends kept of their connection.

ghost use Rattle.std.specs.Prelude.{◌≡◌, IsTrue, ℕ};
ghost use Rattle.ua_headline.specs.Talk.{IsPrefix};

/// Whether bytes begin with a prefix.
fn begins(octets: &[u8], prefix: &[u8]) -> bool
    ensures { IsTrue result → IsPrefix prefix.now octets.now }
{
    octets.starts_with(prefix)
}
