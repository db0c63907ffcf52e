ghost use Rattle.std.specs.Prelude.{◌≡◌, ◌^◌, ◌≤◌, ◌<◌};

// 2^k, for every crate: no other file makes a power of two.
pub fn power(k: u32) -> u64
    requires { k < 64 }
    ensures { result ≡ 2 ^ k }
{
    1u64 << k
}

// The same in 32 bits, for the widths of a table. (Cut from 64 bits it costs a look-up an instruction.)
pub fn small_power(k: u32) -> u32
    requires { k ≤ 16 }
    ensures { result ≡ 2 ^ k }
{
    1u32 << k
}
