// SPDX-License-Identifier: MIT OR Apache-2.0
//! The calls of notifications.
ghost use Rattle.std.specs.Prelude.{◌≡◌};
ghost use Rattle.ffa_model.specs.Notifications.{bitmap_create, bitmap_destroy, has_pending, notifications_of, notification_bind, notification_get, notification_set, notification_unbind};
ghost use Rattle.ffa_model.specs.Notices.{has_notices, notification_info_get};
ghost use Rattle.ffa_spmc.specs.Served.{IsReplied};
ghost use Rattle.ffa_physmem.specs.Work.{no_work};

use super::Manager;
use crate::replies::{done_or_error, reply_or_error};
use crate::storage::Store;
use ffa_model::{EndpointId, NotificationBits, Reply};
use ffa_physmem::PhysMem;

impl<M: PhysMem + Drop, S: Store> Manager<M, S> {
    // Whether a bit of an endpoint is pending. It is false if the machine has no such endpoint.
    pub(crate) fn has_pending(&self, endpoint: EndpointId) -> bool
        ensures { result ≡ has_pending (notifications_of self.now.state) endpoint.0 }
    {
        endpoint.is_among(self.endpoints()) && self.kept.bitmaps.has_pending(endpoint)
    }

    // Whether FFA_NOTIFICATION_INFO_GET would report an endpoint to the normal world.
    pub(crate) fn has_notices(&self) -> bool
        ensures { result ≡ has_notices self.now.state }
    {
        let ffa = self.kept.manifest.ffa;
        let bitmaps = &self.kept.bitmaps;
        bitmaps.check_info(ffa, EndpointId::NORMAL_WORLD).is_ok()
    }

    // Serves FFA_NOTIFICATION_BITMAP_CREATE of the runner.
    pub(super) fn bitmap_create(&mut self, endpoint: u32, contexts: u32) -> Reply
        ensures { IsReplied self.old self.new (bitmap_create self.old.state endpoint contexts) no_work result }
    {
        let ffa = self.kept.manifest.ffa;
        let runner = self.kept.chain.runner();
        done_or_error(self.kept.bitmaps.create(ffa, runner, endpoint, contexts))
    }

    // Serves FFA_NOTIFICATION_BITMAP_DESTROY of the runner.
    pub(super) fn bitmap_destroy(&mut self, endpoint: u32) -> Reply
        ensures { IsReplied self.old self.new (bitmap_destroy self.old.state endpoint) no_work result }
    {
        let runner = self.kept.chain.runner();
        done_or_error(self.kept.bitmaps.destroy(runner, endpoint))
    }

    // Serves FFA_NOTIFICATION_BIND of the runner.
    pub(super) fn notification_bind(&mut self, bits: &NotificationBits) -> Reply
        ensures { IsReplied self.old self.new (notification_bind self.old.state bits.now) no_work result }
    {
        let runner = self.kept.chain.runner();
        done_or_error(self.kept.bitmaps.bind(runner, bits))
    }

    // Serves FFA_NOTIFICATION_UNBIND of the runner.
    pub(super) fn notification_unbind(&mut self, bits: &NotificationBits) -> Reply
        ensures { IsReplied self.old self.new (notification_unbind self.old.state bits.now) no_work result }
    {
        let runner = self.kept.chain.runner();
        done_or_error(self.kept.bitmaps.unbind(runner, bits))
    }

    // Serves FFA_NOTIFICATION_SET of the runner.
    pub(super) fn notification_set(&mut self, bits: &NotificationBits) -> Reply
        ensures { IsReplied self.old self.new (notification_set self.old.state bits.now) no_work result }
    {
        let runner = self.kept.chain.runner();
        done_or_error(self.kept.bitmaps.set(runner, bits))
    }

    // Serves FFA_NOTIFICATION_GET of the runner.
    pub(super) fn notification_get(
        &mut self,
        receiver: EndpointId,
        context: u16,
        flags: u32,
    ) -> Reply
        ensures { IsReplied self.old self.new (notification_get self.old.state receiver.0 context flags) no_work result }
    {
        let ffa = self.kept.manifest.ffa;
        let runner = self.kept.chain.runner();
        reply_or_error(self.kept.bitmaps.get(ffa, runner, receiver, context, flags))
    }

    // Serves FFA_NOTIFICATION_INFO_GET of the runner.
    pub(super) fn notification_info_get(&mut self, is_wide: bool) -> Reply
        ensures { IsReplied self.old self.new (notification_info_get self.old.state is_wide) no_work result }
    {
        let ffa = self.kept.manifest.ffa;
        let runner = self.kept.chain.runner();
        reply_or_error(self.kept.bitmaps.info_get(ffa, runner, is_wide))
    }
}
