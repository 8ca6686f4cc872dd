ghost use Rattle.std.specs.Prelude.{◌≡◌, ◌^◌, ◌<◌, ◌≤◌, length};
ghost use Rattle.wasm_values.specs.Operators.{number_of_bytes, bytes_of_number};

/// The number that at most eight bytes stand for, the byte of least worth first.
pub fn load_le(bytes: &[u8]) -> u64
    requires { length bytes.now ≤ 8 }
    ensures { result ≡ number_of_bytes bytes.now }
{
    let mut all = [0; 8];
    all[..bytes.len()].copy_from_slice(bytes);
    u64::from_le_bytes(all)
}

/// Writes as many bytes of a number as there is room for, the byte of least worth first.
pub fn store_le(value: u64, into: &mut [u8])
    requires { length into.old ≤ 8 }
    ensures { into.new ≡ bytes_of_number (length into.old) value }
{
    let all = value.to_le_bytes();
    into.copy_from_slice(&all[..into.len()]);
}
