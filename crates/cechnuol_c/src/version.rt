// The version, as C asks for it: a program can tell the library that it is linked with from the header that it was compiled with.
ghost use Rattle.std.specs.Prelude.{◌≡◌};
ghost use Rattle.cechnuol.specs.Version.{version};

// The version of this library.
#[unsafe(no_mangle)]
pub extern "C" fn cechnuol_version() -> u64
    ensures { result ≡ version }
{
    cechnuol::version::cechnuol_version()
}
