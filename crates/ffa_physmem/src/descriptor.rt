// SPDX-License-Identifier: MIT OR Apache-2.0
//! A descriptor of stage 2 tables with the 4 KiB granule (DDI 0487, D8.3).
ghost use Rattle.std.specs.Prelude.{◌≡◌, ◌*◌, ◌^◌, ◌==◌};
ghost use Rattle.ffa_model.specs.Bits.{bits, is_set};
ghost use Rattle.ffa_physmem.specs.Levels.{shift};

/// Bits 1:0 of a block descriptor at levels 1 and 2: type 01. A descriptor is invalid if bit 0 is clear.
pub const BLOCK: u64 = 0b01;

/// The bit by which a page descriptor of level 3 differs from a block descriptor.
pub const PAGE: u64 = 0b10;

/// Bits 1:0 of a table descriptor at levels 1 and 2, and of a page descriptor at level 3: type 11.
pub const TABLE: u64 = BLOCK + PAGE;

/// The lower bit of S2AP: the memory may be read.
pub const READABLE: u64 = 1 << 6;

/// The upper bit of S2AP: the memory may be written.
pub const WRITABLE: u64 = 1 << 7;

/// The access flag AF. The processor does not translate an address if this bit is clear.
pub const ACCESSED: u64 = 1 << 10;

/// The bit XN: the memory may not be executed.
pub const EXECUTE_NEVER: u64 = 1 << 54;

/// Bits 47:12 of a descriptor: the address of a page.
pub const ADDRESS: u64 = 0x0000_ffff_ffff_f000;

/// The descriptor of a page of normal memory that may be read, without its address: type 11, MemAttr 1111, S2AP 01, SH
/// 11 and AF.
pub const READABLE_PAGE: u64 = TABLE + (0b1111 << 2) + READABLE + (0b11 << 8) + ACCESSED;

/// The level of a table in a walk.
#[derive(Clone, Copy, Debug, PartialEq, Eq)]
pub enum Level {
    /// Level 1. A descriptor maps 1 GiB.
    One,
    /// Level 2. A descriptor maps 2 MiB.
    Two,
    /// Level 3. A descriptor maps a page of 4 KiB.
    Three,
}

/// A word of a table. Its bits may have any values.
#[derive(Clone, Copy, Debug, PartialEq, Eq)]
pub struct Descriptor(pub u64);

impl Descriptor {
    /// Whether the descriptor is valid.
    #[inline(always)]
    pub fn is_valid(self) -> bool
        ensures { result ≡ is_set 0 self.0 }
    {
        self.0 & BLOCK != 0
    }

    /// Whether a valid descriptor of level 1 or 2 is a table descriptor. Otherwise it is a block descriptor.
    #[inline(always)]
    pub fn is_table(self) -> bool
        ensures { result ≡ is_set 1 self.0 }
    {
        self.0 & PAGE != 0
    }

    /// Whether a descriptor of level 3 is a page descriptor.
    #[inline(always)]
    pub fn is_page(self) -> bool
        ensures { result ≡ (bits 1 0 self.0 == 3) }
    {
        self.0 % 4 == TABLE
    }

    /// Whether the access flag AF is set.
    #[inline(always)]
    pub fn is_accessed(self) -> bool
        ensures { result ≡ is_set 10 self.0 }
    {
        self.0 & ACCESSED != 0
    }

    /// Whether the memory of the descriptor may be read.
    #[inline(always)]
    pub fn is_readable(self) -> bool
        ensures { result ≡ is_set 6 self.0 }
    {
        self.0 & READABLE != 0
    }

    /// Whether the memory of the descriptor may be written.
    #[inline(always)]
    pub fn is_writable(self) -> bool
        ensures { result ≡ is_set 7 self.0 }
    {
        self.0 & WRITABLE != 0
    }

    /// Whether the memory of the descriptor may not be executed.
    #[inline(always)]
    pub fn is_execute_never(self) -> bool
        ensures { result ≡ is_set 54 self.0 }
    {
        self.0 & EXECUTE_NEVER != 0
    }

    /// Returns the address of the table that a table descriptor names.
    #[inline(always)]
    pub fn table(self) -> u64
        ensures { result ≡ bits 47 12 self.0 * 2 ^ 12 }
    {
        self.output(Level::Three)
    }

    /// Returns the first address to which a block descriptor or page descriptor of this level maps.
    #[inline(always)]
    pub fn output(self, level: Level) -> u64
        ensures { result ≡ bits 47 (shift level) self.0 * 2 ^ shift level }
    {
        match level {
            Level::One => (self.0 >> 30) % (1 << 18) * (1 << 30),
            Level::Two => (self.0 >> 21) % (1 << 27) * (1 << 21),
            Level::Three => (self.0 >> 12) % (1 << 36) * (1 << 12),
        }
    }
}
