// The version of the library.
ghost use Rattle.std.specs.Prelude.{◌≡◌};
ghost use Rattle.desk.specs.Version.{version_number};

// The version as one number; never refused.
#[unsafe(no_mangle)]
pub extern "C" fn imbrolt_version() -> u32
    ensures { result ≡ version_number }
{
    desk::version()
}
