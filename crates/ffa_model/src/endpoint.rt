// SPDX-License-Identifier: MIT OR Apache-2.0
//! Endpoints, pages and regions.
ghost use Rattle.std.specs.Prelude.{⊤, true, ◌≡◌, ◌↔◌, ℕ, ◌+◌, ◌*◌, ◌<◌, ◌≤◌, [], ◌∷◌, All, codes};
ghost use Rattle.ffa_model.specs.Identifiers.{identifier, place};
ghost use Rattle.ffa_model.specs.Regions.{has_page, right_in};
ghost use Rattle.ffa_model.specs.State.{is_known_among, is_partition_among};
ghost use Rattle.ffa_model.specs.Uuid.{is_uuid};

use crate::limits::MOST_REGIONS;
use crate::rights::Rights;
use arrayvec::ArrayVec;
use bitflags::{Flag, Flags, bitflag_items};

/// The identifier of an endpoint (DEN0077A, 6.1): 0 is the normal world, and partitions have 0x8001 and higher. 0x8000
/// is the manager itself.
// Definitions, descriptors, reasons and the pool use plain numbers instead of this type and `Handle`: as keys, and as
// bytes that a call reads. With the types, some 300 places would take the number out again.
#[derive(Clone, Copy, Debug, PartialEq, Eq, PartialOrd, Ord, Default)]
pub struct EndpointId(pub u16);

impl EndpointId {
    /// The identifier of the normal world, which is not a partition's.
    pub const NORMAL_WORLD: EndpointId = EndpointId(0);

    /// The identifier of the manager, which is not an endpoint.
    pub const MANAGER: EndpointId = EndpointId(0x8000);

    /// Returns the identifier of the endpoint at a place in the manifest, counted from 0.
    pub fn at(place: usize) -> EndpointId
        requires { place < 0x8000 }
        ensures { result.0 ≡ identifier place }
    {
        if place == 0 {
            EndpointId::NORMAL_WORLD
        } else {
            EndpointId(0x8000 + place as u16)
        }
    }

    /// Returns the place in the manifest of the endpoint with this identifier, counted from 0. Each identifier up to
    /// 0x8000 has place 0, as the normal world has. So first test by `is_among` whether the identifier names an
    /// endpoint.
    pub fn place(self) -> usize
        ensures { result ≡ place self.0 }
    {
        self.0.saturating_sub(0x8000) as usize
    }

    /// Whether this identifier names an endpoint of a machine that has `endpoints` endpoints.
    pub fn is_among(self, endpoints: usize) -> bool
        ensures { result ≡ is_known_among endpoints self.0 }
    {
        self == EndpointId::NORMAL_WORLD || self.is_partition_among(endpoints)
    }

    /// Whether this identifier names a partition of a machine that has `endpoints` endpoints.
    pub fn is_partition_among(self, endpoints: usize) -> bool
        ensures { result ≡ is_partition_among endpoints self.0 }
    {
        self > EndpointId::MANAGER && self.place() < endpoints
    }
}

/// The form in which an endpoint writes and reads descriptors.
#[derive(Clone, Copy, Debug, PartialEq, Eq, Default)]
pub enum Version {
    /// The form of this project, with short headers of memory transactions, and with 8 bytes of partition information
    /// for each partition.
    Compact,
    /// The form of FF-A 1.1.
    #[default]
    V1_1,
    /// The form of FF-A 1.2, whose access descriptors have 32 bytes.
    V1_2,
}

/// The address of a byte of RAM, below 4 GiB.
#[derive(Clone, Copy, Debug, PartialEq, Eq, PartialOrd, Ord, Default)]
pub struct Address(pub u32);

/// The number of a page of 4096 bytes, counted from RAM's first page.
#[derive(Clone, Copy, Debug, PartialEq, Eq, PartialOrd, Ord, Default)]
pub struct PageNo(pub u32);

/// The properties of an endpoint, as bits (DEN0077A, 6.2.2): the messages and notifications that it takes part in.
#[derive(Clone, Copy, Debug, PartialEq, Eq, Default)]
pub struct Properties(u32);

bitflag_items! {
    impl Properties: u32 {
        const RECEIVES_DIRECT_REQUESTS = 1;
        const SENDS_DIRECT_REQUESTS = 2;
        const INDIRECT_MESSAGES = 4;
        const RECEIVES_NOTIFICATIONS = 8;
        const RECEIVES_SECOND_REQUESTS = 0x200;
        const SENDS_SECOND_REQUESTS = 0x400;
    }
}

// Written by hand, because this form of `bitflags` has contracts.
impl Flags for Properties {
    type Bits = u32;

    ghost exact = { ⊤ };

    ghost table = { (codes "RECEIVES_DIRECT_REQUESTS", 1) ∷ (codes "SENDS_DIRECT_REQUESTS", 2)
        ∷ (codes "INDIRECT_MESSAGES", 4) ∷ (codes "RECEIVES_NOTIFICATIONS", 8)
        ∷ (codes "RECEIVES_SECOND_REQUESTS", 0x200) ∷ (codes "SENDS_SECOND_REQUESTS", 0x400) ∷ [] };

    ghost set_of = { λ p. p.0 };

    fn flags<'a>() -> &'a [Flag<Properties>] {
        Properties::FLAGS
    }

    fn bits(&self) -> u32 {
        self.0
    }

    fn from_bits_retain(bits: u32) -> Properties {
        Properties(bits)
    }
}

/// Consecutive pages that an endpoint owns from the start, with its right to them.
#[derive(Clone, Copy, Debug, PartialEq, Eq, Default)]
pub struct Region {
    /// The address of the first byte.
    pub base: u32,
    /// The number of pages.
    pub pages: u32,
    pub rights: Rights,
}

impl Region {
    /// Whether the region has this page of RAM. RAM begins at `ram_base`.
    pub fn has_page(&self, ram_base: Address, page: PageNo) -> bool
        ensures { result ≡ has_page ram_base.0 page.0 self.now }
    {
        let address = u64::from(ram_base.0) + 4096 * u64::from(page.0);
        let start = u64::from(self.base);
        start <= address && address < start + 4096 * u64::from(self.pages)
    }

    /// Returns the end of a run of pages that begins with `first`, and that the region has entirely or not at all. The
    /// run does not include the end, which is at most `end`. RAM begins at `ram_base`.
    pub fn alike_until(&self, ram_base: Address, first: PageNo, end: u32) -> u32
        requires { first.0 < end }
        ensures some { first.0 < result }
        ensures end { result ≤ end }
        ensures alike { (p : ℕ) → first.0 ≤ p → p < result →
            has_page ram_base.0 p self.now ≡ has_page ram_base.0 first.0 self.now }
    {
        let page = u64::from(first.0);
        let start = u64::from(self.base);
        let from = pages_below(ram_base, start);
        let to = pages_below(ram_base, start + 4096 * u64::from(self.pages));
        let until = if page < from {
            from
        } else if page < to {
            to
        } else {
            u64::from(end)
        };
        until.min(u64::from(end)) as u32
    }
}

// Counts the pages of RAM that begin below `address`, as if RAM went on that far. RAM begins at `ram_base`.
fn pages_below(ram_base: Address, address: u64) -> u64
    ensures { (p : ℕ) → (p < result) ↔ (ram_base.0 + 4096 * p < address) }
{
    address.saturating_sub(u64::from(ram_base.0)).div_ceil(4096)
}

/// An endpoint as the manifest describes it. The UUID of the normal world is zeros.
#[derive(Default, Drop)]
pub struct Endpoint {
    pub version: Version,
    pub uuid: [u8; 16],
    pub properties: Properties,
    pub regions: ArrayVec<Region, MOST_REGIONS>,
}

impl Endpoint {
    // Makes the endpoint of these parts. Its UUID has 16 bytes, as the type says.
    fn of(
        version: Version,
        uuid: [u8; 16],
        properties: Properties,
        regions: ArrayVec<Region, MOST_REGIONS>,
    ) -> Endpoint
        ensures parts { result ≡ record { version = version; uuid = uuid; properties = properties; regions = regions } }
        ensures uuid { is_uuid result.uuid ≡ true }
    {
        Endpoint {
            version,
            uuid,
            properties,
            regions,
        }
    }

    /// Returns the endpoint's right to this page of RAM, which is the right of its first region with the page. Returns
    /// `None` if no region of the endpoint has the page. RAM begins at `ram_base`.
    pub fn right_to(&self, ram_base: Address, page: PageNo) -> Option<Rights>
        ensures { result ≡ right_in ram_base.0 self.now.regions.items page.0 }
    {
        right_in(self.regions.as_slice(), ram_base, page)
    }

    /// Returns a copy of the endpoint, and allocates nothing. The UUID of the endpoint has 16 bytes, as its type says.
    // `Clone` would return a `Result`.
    pub fn copy(&self) -> Endpoint
        ensures same { result ≡ self.now }
        ensures uuid { is_uuid self.now.uuid ≡ true }
    {
        let mut regions = ArrayVec::new();
        for region in self.regions.as_slice() {
            regions.push(*region);
        }
        Endpoint::of(self.version, self.uuid, self.properties, regions)
    }
}

/// Returns the right of the first of these regions that has this page of RAM. Returns `None` if no region has the page.
/// RAM begins at `ram_base`.
pub fn right_in(regions: &[Region], ram_base: Address, page: PageNo) -> Option<Rights>
    ensures { result ≡ right_in ram_base.0 regions.now page.0 }
{
    regions
        .iter()
        .find(|region| region.has_page(ram_base, page))
        .map(|region| region.rights)
}

/// Returns the end of a run of pages that begins with `first`, and that each of these regions has entirely or not at
/// all. The run does not include the end, which is at most `end`. RAM begins at `ram_base`.
pub fn regions_until(regions: &[Region], ram_base: Address, first: PageNo, end: u32) -> u32
    requires { first.0 < end }
    ensures some { first.0 < result }
    ensures end { result ≤ end }
    ensures alike { (p : ℕ) → first.0 ≤ p → p < result →
        All (λ r. has_page ram_base.0 p r ≡ has_page ram_base.0 first.0 r) regions.now }
{
    let mut until = end;
    for region in regions {
        until = region.alike_until(ram_base, first, until);
    }
    until
}
