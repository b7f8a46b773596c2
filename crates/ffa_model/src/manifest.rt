// SPDX-License-Identifier: MIT OR Apache-2.0
//! The manifest of a machine.
ghost use Rattle.std.specs.Prelude.{true, ◌≡◌, ℕ, ◌+◌, ◌*◌, ◌<◌, ◌≤◌, All, is_some, length, map};
ghost use Rattle.ffa_model.specs.declared.manifest.Ffa.TheVariants.{V1_1};
ghost use Rattle.ffa_model.specs.Manifest.{is_accepted, root_of};
ghost use Rattle.ffa_model.specs.Regions.{has_page, right_in, regions_at, normal_of, owned_regions, owner_in};
ghost use Rattle.ffa_model.specs.Endpoints.{have_uuids};
ghost use Rattle.ffa_model.specs.Notices.{hears_notices};
ghost use Rattle.ffa_model.specs.Transactions.{most_sends};

use crate::endpoint::{Address, Endpoint, EndpointId, PageNo, regions_until};
use crate::limits::{MOST_ENDPOINTS, MOST_HANDLES, MOST_SENDS};
use crate::rights::Rights;
use arrayvec::ArrayVec;

/// The version of FF-A that a machine serves, from its boot on.
#[derive(Clone, Copy, Debug, PartialEq, Eq, Default)]
pub enum Ffa {
    /// FF-A 1.1 (DEN0077A). All memory is alike, and no answer says to which world it belongs.
    #[default]
    V1_1,
    /// FF-A 1.2. The memory of the normal world's regions is non-secure (DEN0077A, 5 and 16), and an endpoint that
    /// retrieves it sees this. All other memory is secure, and cannot be sent to the normal world.
    V1_2,
}

impl Ffa {
    /// Whether an endpoint may call FFA_NOTIFICATION_INFO_GET, which reports notices. In FF-A 1.2 the normal world may.
    /// In FF-A 1.1 no endpoint may.
    pub fn tells_notices(self, endpoint: EndpointId) -> bool
        ensures { result ≡ hears_notices self endpoint.0 }
    {
        match self {
            Ffa::V1_1 => false,
            Ffa::V1_2 => endpoint == EndpointId::NORMAL_WORLD,
        }
    }

    /// Returns the most sends of one endpoint. After that number of sends, the machine refuses each send of the
    /// endpoint.
    pub fn most_sends(self) -> u32
        ensures { result ≡ most_sends self }
    {
        match self {
            Ffa::V1_1 => MOST_SENDS,
            Ffa::V1_2 => MOST_HANDLES,
        }
    }
}

/// The RAM and the endpoints of a machine, which meet the conditions of an accepted manifest. These conditions are
/// about the place and the size of RAM, the number of endpoints, and the UUID, the properties and the regions of each
/// endpoint. The tables of the endpoints are in RAM. The regions are in RAM too, apart from the tables and from one
/// another.
#[derive(Drop)]
pub struct Manifest {
    /// The address of RAM's first byte.
    pub ram_base: Address,
    /// The size of RAM, in blocks of 2 MiB.
    pub ram_blocks: u32,
    /// The first page of the tables, which are consecutive pages.
    pub tables: PageNo,
    /// The normal world, then the partitions in the order of their identifiers.
    pub endpoints: ArrayVec<Endpoint, MOST_ENDPOINTS>,
    /// The version of FF-A that the machine serves.
    pub ffa: Ffa,
    pub ghost accepted: { is_accepted ram_base.0 tables.0 ram_blocks endpoints.items ≡ true },
}

impl Manifest {
    /// Makes the manifest of these parts, whose machine serves FF-A 1.1.
    pub fn of(
        ram_base: Address,
        ram_blocks: u32,
        tables: PageNo,
        endpoints: ArrayVec<Endpoint, MOST_ENDPOINTS>,
    ) -> Manifest
        requires { is_accepted ram_base.0 tables.0 ram_blocks endpoints.items ≡ true }
        ensures base { result.ram_base ≡ ram_base }
        ensures blocks { result.ram_blocks ≡ ram_blocks }
        ensures tables { result.tables ≡ tables }
        ensures endpoints { result.endpoints.items ≡ endpoints.items }
        ensures ffa { result.ffa ≡ V1_1 }
    {
        Manifest {
            ram_base,
            ram_blocks,
            tables,
            endpoints,
            ffa: Ffa::V1_1,
        }
    }

    /// Returns the manifest with this version of FF-A, which its machine then serves.
    pub fn with_ffa(self, ffa: Ffa) -> Manifest
        ensures { result ≡ record self { ffa = ffa } }
    {
        let Manifest {
            ram_base,
            ram_blocks,
            tables,
            endpoints,
            ffa: _,
        } = self;
        Manifest {
            ram_base,
            ram_blocks,
            tables,
            endpoints,
            ffa,
        }
    }

    /// Whether the manifest's machine distinguishes secure from non-secure memory.
    pub fn tells_worlds(&self) -> bool
        ensures { result ≡ is_some (normal_of self.now.ffa (regions_at self.now.endpoints.items 0)) }
    {
        self.ffa == Ffa::V1_2
    }

    /// Returns the address of an endpoint's level 1 table. `index` is the place of the endpoint in the manifest,
    /// counted from 0.
    pub fn root(&self, index: usize) -> u32
        requires { index < length self.now.endpoints.items }
        ensures { result ≡ root_of self.now.ram_base.0 self.now.tables.0 self.now.ram_blocks index }
    {
        self.ram_base.0 + 4096 * (self.tables.0 + index as u32 * (2 + self.ram_blocks))
    }

    /// Returns the right to a page that the endpoint at a place has by its regions. Returns `None` if no region of the
    /// endpoint has the page, or if there is no such endpoint.
    pub fn right_to(&self, place: usize, page: PageNo) -> Option<Rights>
        ensures { result ≡ right_in self.now.ram_base.0 (regions_at self.now.endpoints.items place) page.0 }
    {
        let endpoints = self.endpoints.as_slice();
        if place < endpoints.len() {
            endpoints[place].right_to(self.ram_base, page)
        } else {
            None
        }
    }

    /// Returns the owner of a page, which is the endpoint with a region that has the page, or else the manager.
    pub fn owner_of(&self, page: PageNo) -> EndpointId
        ensures { result.0 ≡ owner_in self.now.ram_base.0 self.now.endpoints.items page.0 }
    {
        for (place, endpoint) in self.endpoints.as_slice().iter().enumerate() {
            if endpoint.right_to(self.ram_base, page).is_some() {
                return EndpointId::at(place);
            }
        }
        EndpointId::MANAGER
    }

    /// Returns the end of a run of pages that begins with `first`, and that each region of each endpoint has entirely
    /// or not at all. The run does not include the end, which is at most `end`.
    pub fn alike_until(&self, first: PageNo, end: u32) -> u32
        requires { first.0 < end }
        ensures some { first.0 < result }
        ensures end { result ≤ end }
        ensures alike { (p : ℕ) → first.0 ≤ p → p < result →
            All (λ x. has_page self.now.ram_base.0 p x.1 ≡ has_page self.now.ram_base.0 first.0 x.1)
            (owned_regions self.now.endpoints.items) }
    {
        let mut until = end;
        for endpoint in self.endpoints.as_slice() {
            until = regions_until(endpoint.regions.as_slice(), self.ram_base, first, until);
        }
        until
    }

    /// Returns a copy of the manifest, and allocates nothing. Each UUID has 16 bytes, as its type says.
    pub fn copy(&self) -> Manifest
        ensures same { result ≡ self.now }
        ensures uuids { have_uuids self.now.endpoints.items ≡ true }
    {
        let mut endpoints = ArrayVec::new();
        for endpoint in self.endpoints.as_slice() {
            endpoints.push(endpoint.copy());
        }
        Manifest::of(self.ram_base, self.ram_blocks, self.tables, endpoints).with_ffa(self.ffa)
    }
}
