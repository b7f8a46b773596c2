// SPDX-License-Identifier: MIT OR Apache-2.0
//! Lines of operations.

ghost use Rattle.std.specs.Prelude.{◌≡◌, ◌≤◌, ◌<◌, ◌^◌, [], take, OnOk, OnErr};
ghost use Rattle.arrayvec.specs.ArrayVec.{array_vec_len};
ghost use Rattle.ffa_model.specs.declared.operation.Op.TheVariants.{Call, Load, Store, Fetch};
ghost use Rattle.ffa_model.specs.Memory.{size_of};
ghost use Rattle.play_trace.specs.TraceLines.{registers_of};
ghost use Rattle.play_trace.specs.Script.{IsProper, IsLineOf, GrowsBy};

use crate::line_text::{LineText, digits_of};
use crate::text::{push_hex, push_word};
use ffa_model::{Op, Size};
use std::alloc::{AllocError, Allocator};

/// Appends the line of a trace that does this operation to a text, with its LF. An address has 8 digits if they are
/// enough, and otherwise 16. A register has the digits that it needs. A call's line leaves out the zero registers at
/// its end, but never x0.
///
/// A store's value must fit its size. If there is no memory, the text stays as it is.
pub fn put_operation<A: Allocator>(text: &mut Vec<u8, A>, op: &Op) -> Result<(), AllocError>
    requires { IsProper op.now }
    ensures written { OnOk result (GrowsBy op.now text.old.items text.new.items) }
    ensures kept { OnErr result (text.new.items ≡ text.old.items) }
{
    let mut line = LineText::new();
    push_operation(&mut line, op);
    line.push(b'\n');
    text.extend_from_slice(line.as_slice())
}

fn push_operation(line: &mut LineText, op: &Op)
    requires empty { line.old.items ≡ [] }
    requires proper { IsProper op.now }
    ensures line { IsLineOf line.new.items op.now }
    ensures len { array_vec_len line.new ≤ 140 }
{
    match op {
        Op::Call(x) => push_call(line, x),
        Op::Load { addr, size } => push_load(line, *addr, *size),
        Op::Store { addr, size, value } => push_store(line, *addr, *size, *value),
        Op::Fetch { addr } => push_fetch(line, *addr),
    }
}

fn push_call(line: &mut LineText, x: &[u64; 8])
    requires { line.old.items ≡ [] }
    ensures line { IsLineOf line.new.items (Call x.now) }
    ensures len { array_vec_len line.new ≤ 140 }
{
    push_word(line, b"call");
    for value in &x[..registers_told(x)] {
        push_hex(line, digits_of(*value), *value);
    }
}

/// Returns the number of registers that a call's line names: x0 and all others up to the last register that is not
/// zero.
fn registers_told(x: &[u64; 8]) -> usize
    ensures some { 1 ≤ result }
    ensures few { result ≤ 8 }
    ensures rest { x.now ≡ registers_of (take result x.now) }
{
    let mut count = 8;
    while count > 1 && x[count - 1] == 0 {
        count -= 1;
    }
    count
}

fn push_load(line: &mut LineText, addr: u64, size: Size)
    requires { line.old.items ≡ [] }
    ensures line { IsLineOf line.new.items (Load addr size) }
    ensures len { array_vec_len line.new ≤ 140 }
{
    push_word(line, b"load");
    push_hex(line, address_digits(addr), addr);
    push_hex(line, 1, size.bytes());
}

fn push_store(line: &mut LineText, addr: u64, size: Size, value: u64)
    requires empty { line.old.items ≡ [] }
    requires fits { value < 256 ^ size_of size }
    ensures line { IsLineOf line.new.items (Store addr size value) }
    ensures len { array_vec_len line.new ≤ 140 }
{
    push_word(line, b"store");
    push_hex(line, address_digits(addr), addr);
    push_hex(line, 2 * size.bytes() as u32, value);
}

fn push_fetch(line: &mut LineText, addr: u64)
    requires { line.old.items ≡ [] }
    ensures line { IsLineOf line.new.items (Fetch addr) }
    ensures len { array_vec_len line.new ≤ 140 }
{
    push_word(line, b"fetch");
    push_hex(line, address_digits(addr), addr);
}

fn address_digits(addr: u64) -> u32
    ensures some { 8 ≤ result }
    ensures few { result ≤ 16 }
    ensures enough { addr < 16 ^ result }
{
    if addr < 1 << 32 { 8 } else { 16 }
}
