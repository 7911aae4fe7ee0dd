// The library's version.

ghost use Rattle.std.specs.Prelude.{◌≡◌};
ghost use Rattle.coronagamba.specs.Version.{version};

// The version of the library that is linked or loaded: patch + 2^16 * minor + 2^32 * major. It is
// CORONAGAMBA_VERSION where the header belongs to that library.
// Refusals: none
pub fn coronagamba_version() -> u64
    ensures answer { result ≡ version }
{
    65536 * 6
}
