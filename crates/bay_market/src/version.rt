// The version for other languages: include/bay_market.h.
ghost use Rattle.std.specs.Prelude.{◌≡◌};
ghost use Rattle.bay_market.specs.Version.{numbered};

#[unsafe(no_mangle)]
pub extern "C" fn bay_market_version() -> u32
    ensures { result ≡ numbered 1 0 0 }
{
    1_000_000
}

// What a caller of version 1.0.0 refers to, so that it is linked with no library that does not serve it. A later
// version has a name of its own beside those that it keeps.
#[unsafe(no_mangle)]
pub extern "C" fn bay_market_1_0_0() -> u32
    ensures { result ≡ numbered 1 0 0 }
{
    bay_market_version()
}
