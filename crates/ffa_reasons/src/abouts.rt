// SPDX-License-Identifier: MIT OR Apache-2.0
//! Explains a check that refuses a call by what the machine has: the owner of a page, buffers, run states and bitmaps.
//! It changes nothing and allocates nothing.
ghost use Rattle.std.specs.Prelude.{◌≡◌, length};
ghost use Rattle.std.specs.Option.{option_map};
ghost use Rattle.ffa_model.specs.About.{about_page};
ghost use Rattle.ffa_model.specs.Buffers.{room_of};
ghost use Rattle.ffa_model.specs.Lists.{is_in_run};
ghost use Rattle.ffa_model.specs.Notifications.{notifications_of};
ghost use Rattle.ffa_model.specs.Obstacles.{unless_own};
ghost use Rattle.ffa_model.specs.RunStates.{requester, schedule_of, work_in};
ghost use Rattle.ffa_model.specs.State.{buffers_of, own_right_of};
ghost use Rattle.ffa_mend.specs.Mend.{in_buffer, mend_about, mend_access, mend_bitmaps, mend_endpoint, mend_fault, mend_field, mend_own_page, mend_page, mend_pending, mend_response, mend_runner, mend_work, side_of};
ghost use Rattle.ffa_rxtx.specs.Stored as kept;

use crate::reasons::Reasons;
use ffa_mend::{Cause, Mend, Side};
use ffa_model::{
    About, EndpointId, FaultKind, Flaw, HeaderFlaw, Obstacle, PageNo, Refusal, Rights,
};
use ffa_physmem::PhysMem;
use ffa_rxtx::Mapped;
use ffa_schedule::Chain;
use ffa_spmc::Store;
use ffa_tlb::Translations;

impl<M: PhysMem + Drop, T: Translations + Drop, S: Store> Reasons<'_, M, T, S> {
    // Returns the page that fails a check, with its obstacle for the runner.
    pub(crate) fn about_page(&self, page: Option<PageNo>) -> Option<About>
        ensures { result ≡ option_map (about_page self.now) page }
    {
        let page = page?;
        Some(About::Page {
            page,
            obstacle: self.unless_own(self.obstacle_at(page)),
        })
    }

    // Returns the obstacle, or `None` if it is that the page belongs to the runner.
    fn unless_own(&self, obstacle: Obstacle) -> Option<Obstacle>
        ensures { result ≡ unless_own self.now.runner obstacle }
    {
        match obstacle {
            Obstacle::OwnedBy(owner) => {
                if owner == self.runner() {
                    None
                } else {
                    Some(obstacle)
                }
            }
            Obstacle::OutsideRam => Some(obstacle),
            Obstacle::ManagersPage => Some(obstacle),
            Obstacle::InTransaction(_) => Some(obstacle),
        }
    }

    // Returns what to change if a check of a call fails, by what the check is about.
    pub(crate) fn mend_about(&self, refusal: Refusal, about: Option<About>) -> Option<Mend>
        ensures { result ≡ mend_about self.now refusal about }
    {
        match about {
            Some(About::Page { page, obstacle }) => self.mend_page(refusal, page, obstacle),
            Some(About::Endpoint(endpoint)) => self.mend_endpoint(refusal, endpoint),
            Some(About::Field { flaw, .. }) => self.mend_field(flaw),
            Some(About::Handle(_) | About::Bit(_) | About::Register { .. }) | None => {
                self.mend_runner(refusal)
            }
        }
    }

    // Returns what to change if an access faults.
    pub(crate) fn mend_fault(&self, addr: u64, kind: FaultKind) -> Option<Mend>
        ensures { result ≡ mend_fault self.now addr kind }
    {
        match kind {
            FaultKind::Permission => self.mend_access(addr),
            FaultKind::Translation
            | FaultKind::Alignment
            | FaultKind::AccessFlag
            | FaultKind::OutsideRam => None,
        }
    }

    // Returns what the runner may do at an address.
    fn mend_access(&self, addr: u64) -> Option<Mend>
        ensures { result ≡ mend_access self.now addr }
    {
        let right = self.access_at(addr)?;
        Some(Mend::Access {
            endpoint: self.runner(),
            right,
        })
    }

    // Returns what to change if a check about a page fails.
    fn mend_page(&self, refusal: Refusal, page: PageNo, obstacle: Option<Obstacle>) -> Option<Mend>
        ensures { result ≡ mend_page self.now refusal page.0 obstacle }
    {
        if obstacle.is_none() {
            return self.mend_own_page(refusal, page);
        }
        match refusal {
            Refusal::ZerosUnwritable => self.mend_right(page),
            _ => None,
        }
    }

    // Returns what to change about a page that the runner owns and that is in no open transaction.
    fn mend_own_page(&self, refusal: Refusal, page: PageNo) -> Option<Mend>
        ensures { result ≡ mend_own_page self.now refusal page.0 }
    {
        match refusal {
            Refusal::PageUnsendable => {
                let runner = self.runner();
                in_buffer(runner, self.buffers_of(runner), page)
            }
            Refusal::GrantTooMuch => self.mend_grant(page),
            Refusal::TxUnusable | Refusal::RxUnusable | Refusal::ZerosUnwritable => {
                self.mend_right(page)
            }
            _ => None,
        }
    }

    // Returns the owner's own right to a page.
    fn mend_right(&self, page: PageNo) -> Option<Mend>
        ensures { result ≡ option_map Mend.OwnRight (own_right_of self.now page.0) }
    {
        match self.own_right_of(page) {
            Some(right) => Some(Mend::OwnRight(right)),
            None => None,
        }
    }

    // Returns the owner's own right to a page, to which the call grants more.
    fn mend_grant(&self, page: PageNo) -> Option<Mend>
        ensures { result ≡ option_map Mend.Granted (own_right_of self.now page.0) }
    {
        match self.own_right_of(page) {
            Some(right) => Some(Mend::Granted(right)),
            None => None,
        }
    }

    // Returns what to change if a check about an endpoint that the call names fails.
    fn mend_endpoint(&self, refusal: Refusal, endpoint: EndpointId) -> Option<Mend>
        ensures { result ≡ mend_endpoint self.now refusal endpoint.0 }
    {
        match refusal {
            Refusal::SenderIsAnother | Refusal::ReceiverIsAnother | Refusal::EndpointIsAnother => {
                Some(Mend::Caller(self.runner()))
            }
            Refusal::ReceiverRxSmall => Some(Mend::Room(room_of(self.buffers_of(endpoint)))),
            _ => None,
        }
    }

    // Returns what to change about a field of a descriptor: the form of the header.
    fn mend_field(&self, flaw: Flaw) -> Option<Mend>
        ensures { result ≡ mend_field self.now flaw }
    {
        match flaw {
            Flaw::Header(HeaderFlaw::AccessSize) => Some(Mend::Form {
                caller: self.runner(),
                version: self.version(),
            }),
            _ => None,
        }
    }

    // Returns what to change about the runner's buffers, its request or its bitmaps.
    fn mend_runner(&self, refusal: Refusal) -> Option<Mend>
        ensures { result ≡ mend_runner self.now refusal }
    {
        match refusal {
            Refusal::DescriptorTooLong => Some(Mend::Room(room_of(self.buffers_of(self.runner())))),
            Refusal::AnswerMisdirected => self.mend_response(),
            Refusal::RxEmpty => Some(Mend::Cause(if self.buffers_of(self.runner()).is_some() {
                Cause::RxNotFull
            } else {
                Cause::BuffersMissing
            })),
            Refusal::NoRequest | Refusal::NotRun | Refusal::NobodyToYieldTo => {
                Some(self.mend_work())
            }
            Refusal::BitmapsMissing => Some(mend_bitmaps(self.runner())),
            Refusal::BitsPending => self.mend_pending(),
            _ => None,
        }
    }

    // Returns what to change about the ends of FFA_MSG_SEND_DIRECT_RESP.
    fn mend_response(&self) -> Option<Mend>
        ensures { let s = self.now in
            result ≡ mend_response s.runner (requester (work_in (schedule_of s) s.runner)) }
    {
        ffa_messages::mend_response(self.parts.chain)
    }

    // Returns the work of the runner.
    fn mend_work(&self) -> Mend
        ensures { let s = self.now in result ≡ mend_work s.runner (work_in (schedule_of s) s.runner) }
    {
        mend_work(self.parts.chain)
    }

    // Returns the lowest pending bit of the runner.
    fn mend_pending(&self) -> Option<Mend>
        ensures { result ≡ mend_pending (notifications_of self.now) self.now.runner }
    {
        let runner = self.parts.chain.runner();
        self.parts.bitmaps.mend_pending(runner)
    }

    // Returns the buffers of an endpoint.
    fn buffers_of(&self, endpoint: EndpointId) -> Option<Mapped>
        ensures { option_map kept.buffers_of result ≡ buffers_of self.now endpoint.0 }
    {
        self.parts.buffers.of(endpoint)
    }

    // Returns the right that the owner of a page has while the page is in no open transaction. Returns `None` for a
    // page of the manager, and outside RAM.
    fn own_right_of(&self, page: PageNo) -> Option<Rights>
        ensures { result ≡ own_right_of self.now page.0 }
    {
        let pages = self.parts.pages;
        if page.0 < pages.pages() {
            pages.own_right_of(page)
        } else {
            None
        }
    }
}

// Returns the work of the runner.
fn mend_work(chain: &Chain) -> Mend
    ensures { result ≡ mend_work chain.now.runner (work_in chain.now chain.now.runner) }
{
    let runner = chain.runner();
    match chain.work(runner) {
        Some(work) => Mend::Works(work),
        None => Mend::Caller(runner),
    }
}

// Returns how an endpoint gets bitmaps.
fn mend_bitmaps(endpoint: EndpointId) -> Mend
    ensures { result ≡ mend_bitmaps endpoint.0 }
{
    Mend::Cause(if endpoint == EndpointId::NORMAL_WORLD {
        Cause::BitmapsUncreated
    } else {
        Cause::NotificationsUnreceived
    })
}

// Returns the buffer in which an endpoint has a page, if it has the page in a buffer.
fn in_buffer(endpoint: EndpointId, own: Option<Mapped>, page: PageNo) -> Option<Mend>
    ensures { result ≡ in_buffer endpoint.0 (option_map kept.buffers_of own) page.0 }
{
    let side = side_of(own?, page)?;
    Some(Mend::Buffer { endpoint, side })
}

fn side_of(own: Mapped, page: PageNo) -> Option<Side>
    ensures { result ≡ side_of page.0 (kept.buffers_of own) }
{
    if is_in_run(own.tx, own.pages, page) {
        Some(Side::Tx)
    } else if is_in_run(own.rx, own.pages, page) {
        Some(Side::Rx)
    } else {
        None
    }
}

// Whether a page is one of this number of pages from `first` on.
fn is_in_run(first: PageNo, pages: u32, page: PageNo) -> bool
    ensures { result ≡ is_in_run first.0 pages page.0 }
{
    first.0 <= page.0 && u64::from(page.0) < u64::from(first.0) + u64::from(pages)
}

// Returns the number of bytes of TX, which RX has too.
fn room_of(own: Option<Mapped>) -> u64
    ensures { result ≡ room_of (option_map kept.buffers_of own) }
{
    match own {
        Some(mapped) => mapped.room() as u64,
        None => 0,
    }
}
