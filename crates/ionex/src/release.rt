// The release of the library, as other languages ask for it.
ghost use Rattle.std.specs.Prelude.{◌≡◌};

// 1.2.3 is told as 10203.
#[unsafe(no_mangle)]
pub extern "C" fn ionex_version() -> u64
    ensures outcome { result ≡ 10000 }
{
    10000
}
