//! A packet at a router, with the values that the router's checks need.

ghost use Rattle.std.specs.Prelude.{◌≡◌, ◌+◌, ◌<◌, ◌≤◌, false, length};
ghost use Rattle.scion_topology.specs.Keys.{key_in_use};
ghost use Rattle.path_header.specs.Value.{segment_at};
ghost use Rattle.router_step.specs.Place.{current_hop, current_info, moved_on};
ghost use Rattle.router_step.specs.Checks.{ends_segment, indices_fit, is_last};
ghost use Rattle.router_step.specs.Done.{on_arrival};

use isd_as::IsdAs;
use path_header::{Header, HopField, InfoField};
use router_step::checks::{has_no_single, is_start_right};
use router_step::{Arrival, seg_id_on_arrival};
use scion_topology::RouterView;
use std::marker::Model;

/// A packet at a router: the router's view, the second of its step, how the packet came, its
/// addresses, and its path header.
#[derive(Drop)]
pub(crate) struct Situation<'a> {
    pub(crate) view: RouterView<'a>,
    pub(crate) now: u32,
    pub(crate) arrival: Arrival,
    pub(crate) source: IsdAs,
    pub(crate) destination: IsdAs,
    pub(crate) header: Header,
}

impl<'a> Model for Situation<'a> {
    ghost use Rattle.router_step.specs.Done.{Situation};

    ghost Value = { Situation };

    ghost view = { λ a. record {
      view = a.view;
      now = a.now;
      arrival = a.arrival;
      source = a.source;
      destination = a.destination;
      header = a.header;
    } };
}

impl Situation<'_> {
    /// The current info field.
    pub(crate) fn info(&self) -> InfoField
        ensures field { result ≡ current_info self.entry.now.header }
        ensures within { let header = self.entry.now.header
            in header.curr_inf < length header.infos }
    {
        self.header.known();
        self.header.current_info()
    }

    /// The current hop field.
    pub(crate) fn hop(&self) -> HopField
        ensures { result ≡ current_hop self.entry.now.header }
    {
        self.header.current_hop()
    }

    /// The info field after the arrival. Over a link against construction direction, this hop's
    /// authenticator is taken out of its accumulator.
    pub(crate) fn info_on_arrival(&self) -> InfoField
        ensures { result ≡ current_info (on_arrival self.entry.now) }
    {
        let mut info = self.info();
        info.seg_id = seg_id_on_arrival(&self.arrival, &info, &self.hop());
        info
    }

    /// The segment of the current hop field.
    pub(crate) fn segment(&self) -> usize
        ensures { result
            ≡ segment_at self.entry.now.header.lens self.entry.now.header.curr_hf }
    {
        self.header.segment_of(self.header.curr_hf())
    }

    /// The key in use, which has at most 64 bytes.
    pub(crate) fn key_in_use(&self) -> &[u8]
        ensures value { result.now ≡ key_in_use self.entry.now.view.keys }
        ensures short { length result.now ≤ 64 }
    {
        self.view.known();
        self.view.key()
    }

    /// Whether the indices fit the segment lengths and the way in which the packet came.
    pub(crate) fn has_right_indices(&self) -> bool
        ensures { result ≡ indices_fit self.entry.now.arrival self.entry.now.header }
    {
        self.header.curr_inf() == self.segment()
            && has_no_single(self.header.seg_lens())
            && is_start_right(&self.arrival, self.header.curr_hf())
    }

    /// Whether the packet is at the last hop of its path.
    pub(crate) fn is_last(&self) -> bool
        ensures value { result ≡ is_last self.entry.now.header }
        ensures more { let header = self.entry.now.header
            in result ≡ false → header.curr_hf + 1 < length header.hops }
    {
        self.header.curr_hf() + 1 == self.header.hop_count()
    }

    /// Whether the next hop is in another segment.
    pub(crate) fn ends_segment(&self) -> bool
        requires { self.now.header.curr_hf + 1 < length self.now.header.hops }
        ensures { result ≡ ends_segment self.entry.now.header }
    {
        self.header.segment_of(self.header.curr_hf() + 1) != self.header.curr_inf()
    }

    /// The info field with which the packet leaves, after the arrival and a switch if there is one.
    pub(crate) fn info_to_leave(&self, switched: bool) -> InfoField
        ensures { result ≡ current_info (moved_on switched (on_arrival self.entry.now)) }
    {
        if !switched {
            return self.info_on_arrival();
        }
        let index = self.header.curr_inf() + 1;
        if index < self.header.info_count() {
            self.header.info(index)
        } else {
            InfoField::default()
        }
    }

    /// The hop field with which the packet leaves, after a switch if there is one.
    pub(crate) fn hop_to_leave(&self, switched: bool) -> HopField
        requires { self.now.header.curr_hf + 1 < length self.now.header.hops }
        ensures { result ≡ current_hop (moved_on switched self.entry.now.header) }
    {
        if switched {
            self.header.hop(self.header.curr_hf() + 1)
        } else {
            self.hop()
        }
    }
}
