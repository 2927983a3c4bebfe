// The version of this library.
#![tactic(auto)]

ghost use Rattle.std.specs.Prelude.{◌≡◌};
ghost use Rattle.version.specs.Version.{version};

pub fn version() -> u64
    ensures { result ≡ version }
{
    0x103
}
