// The version of this library.
ghost use Rattle.std.specs.Prelude.{◌≡◌};
ghost use Rattle.desk.specs.Version.{version_number};

const NUMBER: u32 = 302;

// Ten thousand times the first part of the version, a hundred times the second, and the third.
pub fn version() -> u32
    ensures { result ≡ version_number }
{
    NUMBER
}
