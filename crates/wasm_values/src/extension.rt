ghost use Rattle.std.specs.Prelude.{◌≡◌, ◌-◌, ◌^◌, ◌<◌, ◌≤◌};
ghost use Rattle.wasm_values.specs.Operators.{sign_extended};

/// The number of `to` bits whose signed reading is that of a number of `from` bits.
pub fn sext(from: u32, to: u32, value: u64) -> u64
    requires some { 0 < from }
    requires longer { from ≤ to }
    requires within { to ≤ 64 }
    requires fits { value < 2 ^ from }
    ensures { result ≡ sign_extended from to value }
{
    if value >> (from - 1) == 0 {
        value
    } else {
        value + (greatest(to) - greatest(from))
    }
}

/// The greatest number of some bits.
fn greatest(bits: u32) -> u64
    requires some { 0 < bits }
    requires within { bits ≤ 64 }
    ensures { result ≡ 2 ^ bits - 1 }
{
    u64::MAX >> (64 - bits)
}
