// SPDX-License-Identifier: MIT OR Apache-2.0
//! The fault of an access of the runner, its obstacle, and what gives an endpoint its access.
ghost use Rattle.std.specs.Prelude.{◌≡◌, ◌<◌, length, nat_lt};
ghost use Rattle.std.specs.Option.{option_map};
ghost use Rattle.ffa_model.specs.declared.endpoint.PageNo.{PageNo};
ghost use Rattle.ffa_model.specs.Access.{handle_at, is_held_by, transaction_at};
ghost use Rattle.ffa_model.specs.Memory.{access_at, fault_of, fetch_fault, page_of_address, read_fault, size_of, store_fault};
ghost use Rattle.ffa_model.specs.Obstacles.{obstacle_at, obstacle_of};
ghost use Rattle.ffa_model.specs.Rights.{may_fetch, may_store};
ghost use Rattle.ffa_model.specs.Why.{granted};
ghost use Rattle.ffa_mend.specs.Offered.{offered};

use crate::reasons::Reasons;
use ffa_model::{Data, EndpointId, FaultKind, Grant, Obstacle, PageNo, Rights, Size};
use ffa_physmem::PhysMem;
use ffa_spmc::Store;
use ffa_tlb::Translations;

impl<M: PhysMem + Drop, T: Translations + Drop, S: Store> Reasons<'_, M, T, S> {
    // Returns the fault of a load.
    pub(crate) fn load_fault(&self, addr: u64, size: Size) -> Option<FaultKind>
        ensures { result ≡ read_fault self.now addr (size_of size) }
    {
        fault_of(addr % size.bytes() == 0, self.access_at(addr), true)
    }

    // Returns the fault of a store.
    pub(crate) fn store_fault(&self, addr: u64, size: Size) -> Option<FaultKind>
        ensures { result ≡ store_fault self.now addr (size_of size) }
    {
        let right = self.access_at(addr);
        fault_of(addr % size.bytes() == 0, right, may_store(right))
    }

    // Returns the fault of a fetch.
    pub(crate) fn fetch_fault(&self, addr: u64) -> Option<FaultKind>
        ensures { result ≡ fetch_fault self.now addr }
    {
        let right = self.access_at(addr);
        fault_of(addr % 4 == 0, right, may_fetch(right))
    }

    // Returns the runner's right at an address.
    pub(crate) fn access_at(&self, addr: u64) -> Option<Rights>
        ensures { result ≡ access_at self.now self.now.runner addr }
    {
        match self.page_of(addr) {
            Some(page) => self.access(self.runner(), page),
            None => None,
        }
    }

    // Returns the page of an address, counted from RAM's first page. Returns `None` below RAM, and from 2^32 on.
    fn page_of(&self, addr: u64) -> Option<PageNo>
        ensures { option_map (λ (page : PageNo). page.0) result ≡ page_of_address self.now addr }
    {
        let base = u64::from(self.machine.ram().base().0);
        if base <= addr && addr < 1 << 32 {
            Some(PageNo(((addr - base) / 4096) as u32))
        } else {
            None
        }
    }

    // Returns the obstacle at an address, for a translation fault below 2^32.
    pub(crate) fn obstacle(&self, addr: u64, kind: FaultKind) -> Option<Obstacle>
        ensures { result ≡ obstacle_of self.now addr kind }
    {
        if kind != FaultKind::Translation || addr >= 1 << 32 {
            return None;
        }
        match self.page_of(addr) {
            Some(page) => Some(self.obstacle_at(page)),
            None => Some(Obstacle::OutsideRam),
        }
    }

    // Returns the obstacle at a page.
    pub(crate) fn obstacle_at(&self, page: PageNo) -> Obstacle
        ensures { result ≡ obstacle_at self.now page.0 }
    {
        if !self.is_in_ram(page) {
            return Obstacle::OutsideRam;
        }
        if let Some(handle) = self.machine.handle_at(page) {
            return Obstacle::InTransaction(handle);
        }
        let owner = self.machine.owner_of(page);
        if owner == EndpointId::MANAGER {
            return Obstacle::ManagersPage;
        }
        Obstacle::OwnedBy(owner)
    }

    // Whether a page is in RAM.
    fn is_in_ram(&self, page: PageNo) -> bool
        ensures { result ≡ nat_lt page.0 (length self.now.pages) }
    {
        page.0 < self.machine.ram().pages()
    }

    // Returns what gives an endpoint its access to a page, if it has access.
    pub(crate) fn grant_of(&self, endpoint: EndpointId, page: PageNo) -> Option<Grant>
        ensures { result ≡ granted self.now endpoint.0 page.0 }
    {
        if !self.is_in_ram(page) || self.access(endpoint, page).is_none() {
            return None;
        }
        let Some(handle) = self.machine.handle_at(page) else {
            return Some(Grant::Own);
        };
        if self.is_held_at(endpoint, page) {
            return Some(Grant::Held(handle));
        }
        Some(Grant::Shared(handle))
    }

    // Whether an endpoint holds the open transaction that a page is in.
    fn is_held_at(&self, endpoint: EndpointId, page: PageNo) -> bool
        requires { page.0 < length self.now.pages }
        ensures { result ≡ is_held_by endpoint.0 (transaction_at self.now page.0) }
    {
        self.parts.pool.is_held_at(self.parts.pages, endpoint, page)
    }

    // Returns the most that an endpoint may still get of the open transaction that a page is in.
    pub(crate) fn offered(&self, endpoint: EndpointId, page: PageNo) -> Option<Rights>
        requires { page.0 < length self.now.pages }
        ensures { result ≡ offered self.now endpoint.0 page.0 }
    {
        let parts = &self.parts;
        let base = parts.layout.base;
        parts.pool.offered_at(parts.pages, base, endpoint, page)
    }
}

// Returns the fault of an access, if there is one: alignment, then translation, then permission.
fn fault_of(is_aligned: bool, right: Option<Rights>, is_allowed: bool) -> Option<FaultKind>
    ensures { result ≡ fault_of is_aligned right (λ _. is_allowed) }
{
    if !is_aligned {
        Some(FaultKind::Alignment)
    } else if right.is_none() {
        Some(FaultKind::Translation)
    } else if !is_allowed {
        Some(FaultKind::Permission)
    } else {
        None
    }
}

// Whether a right lets its endpoint write.
fn may_store(right: Option<Rights>) -> bool
    ensures { result ≡ may_store right }
{
    match right {
        Some(right) => right.level == Data::Rw,
        None => false,
    }
}

// Whether a right lets its endpoint fetch.
fn may_fetch(right: Option<Rights>) -> bool
    ensures { result ≡ may_fetch right }
{
    match right {
        Some(right) => right.exec,
        None => false,
    }
}
