// SPDX-License-Identifier: MIT OR Apache-2.0
//! The scenes: what an endpoint does in its turn.
use crate::generator::{Generator, pair};
use crate::stage::Stage;
use crate::{Change, Deed, GenerateError, TraceEntry, Turns, actor_of};
use ffa_model::function::{FFA_MSG_WAIT, FFA_RUN, FFA_YIELD};
use ffa_model::{EndpointId, Properties, Work};

// Plays one of these scenes, each as often as its weight says.
macro_rules! play_one {
    ($generator:expr; $($weight:literal $scene:ident)*) => {
        let mut left = $generator.dice.below(0 $(+ $weight)*);
        $(
            if left < $weight {
                return $generator.$scene();
            }
            left -= $weight;
        )*
    };
}

/// The largest number of scenes in a turn.
const MOST_SCENES: u32 = 4;

/// On a machine of FF-A 1.2, one scene in this number has calls that FF-A 1.1 does not have.
const LATER_SCENES: u32 = 8;

/// The largest number of calls until an endpoint runs. Each blocked endpoint answers once, and then the normal world
/// gives cycles.
const MOST_CALLS: usize = 12;

impl<'m, S: Stage + Drop> Generator<'m, S> {
    // Plays a scene, which is a few operations that belong together.
    fn play_scene(&mut self) {
        if self.serves_1_2() && self.dice.one_in(LATER_SCENES) {
            play_one! { self; 3 play_notices 3 play_naming_retrieve 2 play_read_back }
        }
        play_one! { self;
            2 play_setup
            2 play_information
            1 play_no_call
            1 play_map
            1 play_unmap
            1 release
            2 play_state
            3 play_request
            2 play_response
            3 play_message
            4 play_send
            4 play_turned_send
            2 play_read_only
            4 play_retrieve
            2 play_turned_retrieve
            2 play_relinquish
            2 play_reclaim
            5 play_notification
            5 play_accesses
            1 play_show
        }
    }

    // Makes calls until the endpoint whose turn it is runs, and plays some of its scenes.
    fn play_scenes(&mut self) {
        let actor = actor_of(self.turns, self.endpoints().max(1));
        self.plan_hoard();
        self.turns = self.turns.wrapping_add(1);
        self.hand_over(actor);
        if let Some(hoarder) = self.hoarder {
            self.play_hoard(hoarder);
        }
        if self.dice.one_in(2) {
            self.read_rx();
        }
        let count = 1 + self.dice.below(MOST_SCENES);
        for _ in 0..count {
            if self.runner() == actor {
                self.play_scene();
            }
        }
    }

    // Adds a line for the table of accesses or, in one of eight cases, for the certificate. A reader needs less time
    // for the table.
    fn play_show(&mut self) {
        self.announce(Deed::Show, None, Change::Nothing);
        let entry = match self.dice.below(8) {
            0 => TraceEntry::Audit,
            _ => TraceEntry::Show,
        };
        self.stage.put(entry);
    }

    // Makes calls until this endpoint runs.
    fn hand_over(&mut self, wanted: EndpointId) {
        if self.runner() != wanted {
            self.announce(Deed::HandOver, Some(wanted), Change::Nothing);
        }
        for _ in 0..MOST_CALLS {
            match self.runner() {
                runner if runner == wanted => return,
                EndpointId::NORMAL_WORLD => self.set_going(wanted),
                runner => self.stop_running(runner),
            }
        }
    }

    // The normal world gives a partition cycles by FFA_RUN. Sometimes it sends the partition a direct request instead,
    // if it may and the partition waits.
    fn set_going(&mut self, partition: EndpointId) {
        let normal_world = EndpointId::NORMAL_WORLD;
        let may_ask = self.has_properties(normal_world, Properties::SENDS_DIRECT_REQUESTS)
            && self.has_properties(partition, Properties::RECEIVES_DIRECT_REQUESTS)
            && self.known_of(partition).work.is_none();
        if may_ask && self.dice.one_in(3) {
            self.direct(Deed::Request, normal_world, partition, 0);
        } else {
            self.call(FFA_RUN, &[pair(partition, 0)]);
        }
    }

    // The runner answers its direct request, waits, or returns its cycles.
    fn stop_running(&mut self, runner: EndpointId) {
        match self.known_of(runner).work {
            Some(Work::Request(sender)) => {
                if sender == EndpointId::NORMAL_WORLD && self.dice.one_in(3) {
                    self.call(FFA_YIELD, &[]);
                } else {
                    self.direct(Deed::Respond, runner, sender, 0);
                }
            }
            Some(Work::Run) | None => {
                let yields = self.dice.one_in(4);
                self.call(if yields { FFA_YIELD } else { FFA_MSG_WAIT }, &[]);
            }
        }
    }
}

impl<'m, S: Stage + Drop> Turns for Generator<'m, S> {
    fn play_turn(&mut self, most: u64) -> Result<&[TraceEntry], GenerateError> {
        self.stage.begin(most);
        self.play_scenes();
        self.stage.entries()
    }
}
