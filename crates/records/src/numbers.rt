// Numbers of a file, little-endian (D1). One for each width: `from_le_bytes` is each type's own, under no trait.
ghost use Rattle.std.specs.Prelude.{◌≡◌, ◌+◌, ◌<◌, ◌^◌};
ghost use Rattle.records.specs.Fields.{number};

use std::array;

// Total: 0 behind the end.
pub(crate) fn byte(bytes: &[u8], at: usize) -> u8
    ensures { result ≡ number bytes.now at 1 }
{
    bytes.get(at).copied().unwrap_or(0)
}

pub(crate) fn two(bytes: &[u8], at: usize) -> u16
    requires { at + 1 < 2 ^ 64 }
    ensures { result ≡ number bytes.now at 2 }
{
    u16::from_le_bytes(array::from_fn(|i| byte(bytes, at + i)))
}

pub(crate) fn four(bytes: &[u8], at: usize) -> u32
    requires { at + 3 < 2 ^ 64 }
    ensures { result ≡ number bytes.now at 4 }
{
    u32::from_le_bytes(array::from_fn(|i| byte(bytes, at + i)))
}

pub(crate) fn eight(bytes: &[u8], at: usize) -> u64
    requires { at + 7 < 2 ^ 64 }
    ensures { result ≡ number bytes.now at 8 }
{
    u64::from_le_bytes(array::from_fn(|i| byte(bytes, at + i)))
}
