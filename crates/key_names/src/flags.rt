//! The flags of getrandom(2).
ghost use Rattle.std.specs.Prelude.{◌≡◌};
ghost use Rattle.key_names.specs.Kernel.Flags.{is_bad, is_nonblock, is_insecure};

/// Do not wait for the core to be ready.
pub const GRND_NONBLOCK: u32 = 1;

/// Read as /dev/random does.
pub const GRND_RANDOM: u32 = 2;

/// Take the bytes that can be made now, also before the core is ready.
pub const GRND_INSECURE: u32 = 4;

/// Whether a read does not wait for the core to be ready.
pub fn is_nonblock(flags: u32) -> bool
    ensures { result ≡ is_nonblock flags }
{
    flags / GRND_NONBLOCK % 2 == 1
}

/// Whether a read may be served before the core is ready.
pub fn is_insecure(flags: u32) -> bool
    ensures { result ≡ is_insecure flags }
{
    flags / GRND_INSECURE % 2 == 1
}

/// Whether a flag is unknown, or `GRND_RANDOM` is set together with `GRND_INSECURE`.
pub fn are_bad(flags: u32) -> bool
    ensures { result ≡ is_bad flags }
{
    flags >= 8 || (flags / GRND_RANDOM % 2 == 1 && is_insecure(flags))
}
