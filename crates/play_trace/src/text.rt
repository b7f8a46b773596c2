// SPDX-License-Identifier: MIT OR Apache-2.0
//! The text of outcomes.
ghost use Rattle.std.specs.Prelude.{◌≡◌, ◌+◌, ◌*◌, ◌/◌, ◌%◌, ◌^◌, ◌<◌, ◌≤◌, ◌++◌, length, take, drop, codes, flat_map};
ghost use Rattle.arrayvec.specs.ArrayVec.{array_vec_len};
ghost use Rattle.play_trace.specs.TraceText.{digit, hex, spaced, ended, fault_name, rights_text, resumed_text};

use arrayvec::ArrayVec;
use ffa_model::{Data, FaultKind, MOST_ENDPOINTS, Rights};

/// The room in bytes for the longest text that is written at once. This text has the tables of all endpoints: 32 bytes
/// for each endpoint, and for one more.
pub const CAPACITY: usize = 32 * (MOST_ENDPOINTS + 1);

/// A text that is being made.
pub type Text = ArrayVec<u8, CAPACITY>;

/// Appends a word as it is. The text must have room for it.
pub fn push_word<const N: usize>(text: &mut ArrayVec<u8, N>, word: &[u8])
    requires { array_vec_len text.old + length word.now ≤ N }
    ensures items { text.new.items ≡ text.old.items ++ word.now }
    ensures len { array_vec_len text.new ≡ array_vec_len text.old + length word.now }
{
    let _room = text.try_extend_from_slice(word);
}

/// Appends a space and the lowest `digits` hexadecimal digits of a number, at most 16. The text must have room for
/// them.
pub fn push_hex<const N: usize>(text: &mut ArrayVec<u8, N>, digits: u32, value: u64)
    requires digits { digits ≤ 16 }
    requires room { array_vec_len text.old + digits < N }
    ensures items { text.new.items ≡ text.old.items ++ spaced (hex digits value) }
    ensures len { array_vec_len text.new ≡ array_vec_len text.old + 1 + digits }
{
    text.push(b' ');
    push_digits(text, digits, value);
}

/// Appends the lowest `digits` hexadecimal digits of a number, at most 16. The text must have room for them.
pub fn push_digits<const N: usize>(text: &mut ArrayVec<u8, N>, digits: u32, value: u64)
    requires digits { digits ≤ 16 }
    requires room { array_vec_len text.old + digits ≤ N }
    ensures items { text.new.items ≡ text.old.items ++ hex digits value }
    ensures len { array_vec_len text.new ≡ array_vec_len text.old + digits }
{
    let all = all_digits(value);
    push_word(text, &all[16 - digits as usize..]);
}

// Returns the sixteen digits of a number.
#[inline]
fn all_digits(value: u64) -> [u8; 16]
    ensures { result ≡ hex 16 value }
{
    let h = two_digits(value, 7);
    let g = two_digits(value, 6);
    let f = two_digits(value, 5);
    let e = two_digits(value, 4);
    let d = two_digits(value, 3);
    let c = two_digits(value, 2);
    let b = two_digits(value, 1);
    let a = two_digits(value, 0);
    [
        h.0, h.1, g.0, g.1, f.0, f.1, e.0, e.1, d.0, d.1, c.0, c.1, b.0, b.1, a.0, a.1,
    ]
}

// Returns the two digits of the number's byte at this place. Place 0 is the lowest byte.
#[inline]
fn two_digits(value: u64, place: u32) -> (u8, u8)
    requires { place < 8 }
    ensures high { result.0 ≡ digit (value / 16 ^ (2 * place + 1) % 16) }
    ensures low { result.1 ≡ digit (value / 16 ^ (2 * place) % 16) }
{
    let byte = (value >> (8 * place)) % 256;
    let first = 2 * byte as usize;
    let high = PAIRS[first];
    let low = PAIRS[first + 1];
    (high, low)
}

// The two digits of each byte.
#[rattlefmt::skip]
static PAIRS: [u8; 512] = *b"\
000102030405060708090A0B0C0D0E0F\
101112131415161718191A1B1C1D1E1F\
202122232425262728292A2B2C2D2E2F\
303132333435363738393A3B3C3D3E3F\
404142434445464748494A4B4C4D4E4F\
505152535455565758595A5B5C5D5E5F\
606162636465666768696A6B6C6D6E6F\
707172737475767778797A7B7C7D7E7F\
808182838485868788898A8B8C8D8E8F\
909192939495969798999A9B9C9D9E9F\
A0A1A2A3A4A5A6A7A8A9AAABACADAEAF\
B0B1B2B3B4B5B6B7B8B9BABBBCBDBEBF\
C0C1C2C3C4C5C6C7C8C9CACBCCCDCECF\
D0D1D2D3D4D5D6D7D8D9DADBDCDDDEDF\
E0E1E2E3E4E5E6E7E8E9EAEBECEDEEEF\
F0F1F2F3F4F5F6F7F8F9FAFBFCFDFEFF";

/// Appends a space and the three letters of a right, such as `rw-`, or `---` for no right. The text must have room for
/// them.
pub fn push_right(text: &mut Text, right: Option<Rights>)
    requires { array_vec_len text.old + 4 ≤ CAPACITY }
    ensures items { text.new.items ≡ text.old.items ++ spaced (rights_text right) }
    ensures len { array_vec_len text.new ≡ array_vec_len text.old + 4 }
{
    push_word(text, right_letters(right));
}

fn right_letters(right: Option<Rights>) -> &'static [u8]
    ensures value { result.now ≡ spaced (rights_text right) }
    ensures length { length result.now ≡ 4 }
{
    let Some(right) = right else {
        return b" ---";
    };
    match (right.level, right.exec) {
        (Data::Ro, false) => b" r--",
        (Data::Ro, true) => b" r-x",
        (Data::Rw, false) => b" rw-",
        (Data::Rw, true) => b" rwx",
    }
}

/// The size in bytes of the line of registers, with its LF.
pub const REGISTERS: usize = 146;

/// Writes the line of the runner and its registers, with its LF, over a buffer of exactly this size.
#[inline(always)]
pub fn put_registers(line: &mut [u8; REGISTERS], runner: u16, x: &[u64; 8])
    ensures { line.new ≡ ended (codes "regs" ++ spaced (hex 4 runner) ++ flat_map (λ v. spaced (hex 16 v)) x.now) }
{
    *line = [b'\n'; REGISTERS];
    line[..4].copy_from_slice(b"regs");
    line[4..9].copy_from_slice(&runner_word(u64::from(runner)));
    for place in 0..8 {
        put_register(line, 9 + 17 * place, x[place]);
    }
}

// Writes a space and sixteen digits at an offset. Most registers of most calls are zero or have a zero upper half.
#[inline(always)]
fn put_register(line: &mut [u8; REGISTERS], place: usize, value: u64)
    requires { place + 17 ≤ 146 }
    ensures { line.new ≡ take place line.old ++ spaced (hex 16 value) ++ drop (place + 17) line.old }
{
    if value == 0 {
        put_word(line, place, &zero_word());
    } else if value < 0x1_0000_0000 {
        put_word(line, place, &half_word(value));
    } else {
        put_word(line, place, &register_word(value));
    }
}

// Writes a word of a space and sixteen digits at an offset.
#[inline(always)]
fn put_word(line: &mut [u8; REGISTERS], place: usize, word: &[u8; 17])
    requires { place + 17 ≤ 146 }
    ensures { line.new ≡ take place line.old ++ word.now ++ drop (place + 17) line.old }
{
    line[place..place + 17].copy_from_slice(word);
}

#[inline(always)]
fn runner_word(runner: u64) -> [u8; 5]
    ensures { result ≡ spaced (hex 4 runner) }
{
    let b = two_digits(runner, 1);
    let a = two_digits(runner, 0);
    [b' ', b.0, b.1, a.0, a.1]
}

#[inline(always)]
fn zero_word() -> [u8; 17]
    ensures { result ≡ spaced (hex 16 0) }
{
    *b" 0000000000000000"
}

// Returns the word of a register whose upper half is zero.
#[inline(always)]
fn half_word(value: u64) -> [u8; 17]
    requires { value < 2 ^ 32 }
    ensures { result ≡ spaced (hex 16 value) }
{
    let d = two_digits(value, 3);
    let c = two_digits(value, 2);
    let b = two_digits(value, 1);
    let a = two_digits(value, 0);
    [
        b' ', b'0', b'0', b'0', b'0', b'0', b'0', b'0', b'0', d.0, d.1, c.0, c.1, b.0, b.1, a.0,
        a.1,
    ]
}

#[inline(always)]
fn register_word(value: u64) -> [u8; 17]
    ensures { result ≡ spaced (hex 16 value) }
{
    let h = two_digits(value, 7);
    let g = two_digits(value, 6);
    let f = two_digits(value, 5);
    let e = two_digits(value, 4);
    let d = two_digits(value, 3);
    let c = two_digits(value, 2);
    let b = two_digits(value, 1);
    let a = two_digits(value, 0);
    [
        b' ', h.0, h.1, g.0, g.1, f.0, f.1, e.0, e.1, d.0, d.1, c.0, c.1, b.0, b.1, a.0, a.1,
    ]
}

/// Returns the line of a preempted partition that resumes, with its LF.
pub fn resumed_line(partition: u16) -> [u8; 13]
    ensures { result ≡ resumed_text partition }
{
    let b = two_digits(u64::from(partition), 1);
    let a = two_digits(u64::from(partition), 0);
    [
        b'r', b'e', b's', b'u', b'm', b'e', b'd', b' ', b.0, b.1, a.0, a.1, b'\n',
    ]
}

/// Returns the line of one byte of data, with its LF. Lines of data have constant sizes, so they need no room for a
/// text.
#[inline(always)]
pub fn byte_line(value: u64) -> [u8; 8]
    ensures { result ≡ ended (codes "data" ++ spaced (hex 2 value)) }
{
    let a = two_digits(value, 0);
    [b'd', b'a', b't', b'a', b' ', a.0, a.1, b'\n']
}

/// Returns the line of two bytes of data, with its LF.
#[inline(always)]
pub fn two_byte_line(value: u64) -> [u8; 10]
    ensures { result ≡ ended (codes "data" ++ spaced (hex 4 value)) }
{
    let b = two_digits(value, 1);
    let a = two_digits(value, 0);
    [b'd', b'a', b't', b'a', b' ', b.0, b.1, a.0, a.1, b'\n']
}

/// Returns the line of four bytes of data, with its LF.
#[inline(always)]
pub fn four_byte_line(value: u64) -> [u8; 14]
    ensures { result ≡ ended (codes "data" ++ spaced (hex 8 value)) }
{
    let d = two_digits(value, 3);
    let c = two_digits(value, 2);
    let b = two_digits(value, 1);
    let a = two_digits(value, 0);
    [
        b'd', b'a', b't', b'a', b' ', d.0, d.1, c.0, c.1, b.0, b.1, a.0, a.1, b'\n',
    ]
}

/// Returns the line of eight bytes of data, with its LF.
#[inline(always)]
pub fn eight_byte_line(value: u64) -> [u8; 22]
    ensures { result ≡ ended (codes "data" ++ spaced (hex 16 value)) }
{
    let h = two_digits(value, 7);
    let g = two_digits(value, 6);
    let f = two_digits(value, 5);
    let e = two_digits(value, 4);
    let d = two_digits(value, 3);
    let c = two_digits(value, 2);
    let b = two_digits(value, 1);
    let a = two_digits(value, 0);
    [
        b'd', b'a', b't', b'a', b' ', h.0, h.1, g.0, g.1, f.0, f.1, e.0, e.1, d.0, d.1, c.0, c.1,
        b.0, b.1, a.0, a.1, b'\n',
    ]
}

/// Returns the line of a fault, with its LF.
pub fn fault_line(fault: FaultKind) -> &'static [u8]
    ensures { result.now ≡ ended (codes "fault" ++ spaced (fault_name fault)) }
{
    match fault {
        FaultKind::Translation => b"fault translation\n",
        FaultKind::Permission => b"fault permission\n",
        FaultKind::Alignment => b"fault alignment\n",
        FaultKind::AccessFlag => b"fault access-flag\n",
        FaultKind::OutsideRam => b"fault outside-ram\n",
    }
}
