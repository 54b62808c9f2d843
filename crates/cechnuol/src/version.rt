// The version, for C: a program can tell the library that it is linked with from the header that it was compiled with.
ghost use Rattle.std.specs.Prelude.{◌≡◌};
ghost use Rattle.cechnuol.specs.Version.{version};

// Major × 1,000,000 + minor × 1,000 + patch.
const VERSION: u64 = 6000000;

// The version of this library.
pub fn cechnuol_version() -> u64
    ensures { result ≡ version }
{
    VERSION
}
