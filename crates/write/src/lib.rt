// Writing a TAG item into the first bytes of a lent buffer.
#![tactic(auto)]

ghost use Rattle.std.specs.Prelude.{◌≡◌, ◌++◌, ◌+◌, ◌^◌, ◌≤◌, ◌<◌, length};
ghost use Rattle.base_rules.specs.Answer.{outcome};
ghost use Rattle.base_rules.specs.Bytes.{splice, bytes_of};
ghost use Rattle.base_rules.specs.Refusal.{fault_in};
ghost use Rattle.base_rules.specs.Written.{number_of};
ghost use Rattle.item_rules.specs.Item.{head};
ghost use Rattle.write_rules.specs.Write.{trimmed_by, write_fault, write_call};

use base::Refusal;
use item::{Bits, HEAD};

// Refuses what writing is refused for. A test for each, in the order in which they are due: a function with `?` would hold the same test.
fn fault(name: u32, bits: Bits, len: usize, room: usize) -> Result<(), Refusal>
    ensures { fault_in result ≡ write_fault name bits.0 len room }
{
    let n = item::bytes_of(bits);
    if len != n.0 {
        return Err(Refusal::Bits);
    }
    if item::bad_ptr(name, bits) {
        return Err(Refusal::Ptr);
    }
    if room < HEAD + n.0 {
        Err(Refusal::Room)
    } else {
        Ok(())
    }
}

// 2 to the power of u.
fn power(u: u32) -> u8
    requires { u < 8 }
    ensures { result ≡ 2 ^ u }
{
    1u8 << u
}

// The bytes before a value.
fn put_head(out: &mut [u8], name: u32, bits: u32)
    requires { head ≤ length out.old }
    ensures { out.new ≡ splice out.old 0 (bytes_of 4 name ++ bytes_of 4 bits) }
{
    let n = base::bytes4(name);
    let b = base::bytes4(bits);
    let _ = base::put(out, 0, &n);
    let _ = base::put(out, 4, &b);
}

// The value behind them, its last byte brought down to a multiple of p.
fn put_value(out: &mut [u8], value: &[u8], p: u8)
    requires { (head + length value.now ≤ length out.old) × (0 < p) }
    ensures { out.new ≡ splice out.old head (trimmed_by p value.now) }
{
    let _ = base::put(out, HEAD, value);
    let n = value.len();
    if 0 < n {
        let last = HEAD + n - 1;
        let b = out[last];
        out[last] = b - b % p;
    }
}

// Writes an item: the unused bits of its last byte are written as zeros.
pub fn write(name: u32, bits: Bits, value: &[u8], out: &mut [u8]) -> Result<(), Refusal>
    ensures { outcome (number_of result) out.new ≡ write_call name bits.0 value.now out.old }
{
    fault(name, bits, value.len(), out.len())?;
    let unused = item::unused_of(bits);
    let p = power(unused.0);
    put_head(out, name, bits.0);
    put_value(out, value, p);
    Ok(())
}
