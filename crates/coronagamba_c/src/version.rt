// The library's version.
// Made by ./interface: change crates/coronagamba, then run it.

ghost use Rattle.std.specs.Prelude.{◌≡◌};
ghost use Rattle.coronagamba.specs.Version.{version};

#[unsafe(no_mangle)]
pub extern "C" fn coronagamba_version() -> u64
    ensures answer { result ≡ version }
{
    coronagamba::version::coronagamba_version()
}
