// SPDX-License-Identifier: MIT OR Apache-2.0
//! The leaves that the cache forgets after a call.
ghost use Rattle.std.specs.Prelude.{◌≡◌, ℕ, None, IfSome, if◌then◌else◌};
ghost use Rattle.ffa_memshare.specs.Ranges.{ArePlaced, IsPlaced, in_range, in_ranges};
ghost use Rattle.ffa_model.specs.State.{State};
ghost use Rattle.ffa_spmc.specs.AccessChange.{is_of};
ghost use Rattle.ffa_spmc.specs.Caching.{AreOut, most_pages};
ghost use Rattle.ffa_spmc.specs.Replies.{change_told, value_or_error};
ghost use Rattle.ffa_tlb.specs.Lookups.{lookup};

use crate::replies::value_reply;
use ffa_memshare::{News, PageRanges, Value, first_page};
use ffa_model::{Address, EndpointId, ErrorCode, PageNo, Range, Reply};
use ffa_tlb::Translations;

// Forgets the leaves that the cache holds for an endpoint and the pages of a range. RAM begins at `base`.
fn forget_range<T: Translations>(cache: &mut T, base: Address, endpoint: EndpointId, range: &Range)
    requires { IsPlaced base.0 most_pages range.now }
    ensures { AreOut (T.entries cache.old) (T.entries cache.new) endpoint.0 (in_range base.0 range.now) }
{
    let first = first_page(base, range);
    for page in first..first + range.pages {
        cache.forget(endpoint, PageNo(page));
    }
}

// Forgets the leaves that the cache holds for an endpoint and the pages of these ranges. RAM begins at `base`.
fn forget_ranges<T: Translations>(
    cache: &mut T,
    base: Address,
    endpoint: EndpointId,
    ranges: &PageRanges,
)
    requires { ArePlaced base.0 most_pages ranges.now }
    ensures { AreOut (T.entries cache.old) (T.entries cache.new) endpoint.0 (in_ranges base.0 ranges.now) }
{
    for place in 0..ranges.len() {
        forget_range(cache, base, endpoint, &ranges.at(place));
    }
}

// Returns the reply to a call on memory. If the call succeeded, the cache forgets the leaves of the endpoint and the
// pages that the news report: its access to them changed.
#[inline(always)]
pub(super) fn conclude<T: Translations>(
    cache: &mut T,
    base: Address,
    done: Result<Value, ErrorCode>,
    news: &News,
) -> Reply
    requires { IfSome (change_told done news.now) (λ c. ArePlaced base.0 most_pages c.ranges) }
    ensures reply { result ≡ value_or_error done }
    ensures unchanged { change_told done news.now ≡ None → T.entries cache.new ≡ T.entries cache.old }
    ensures forgotten { (s : State) → s.ram_base ≡ base.0 → (e p : ℕ)
        → let held = lookup (T.entries cache.old) e p in
        lookup (T.entries cache.new) e p ≡ (if is_of s (change_told done news.now) e p then None else held) }
{
    match done {
        Ok(value) => {
            if let Some(changed) = news.last()
                && let Some(endpoint) = changed.endpoint
            {
                forget_ranges(cache, base, endpoint, &changed.ranges);
            }
            value_reply(value)
        }
        Err(code) => Reply::Error(code),
    }
}
