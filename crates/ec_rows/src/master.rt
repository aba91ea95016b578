//! Verbs on what a master does with the ring: its cycles, and its services.

use crate::answer::Answer;
use crate::cycles::Cycles;
use crate::services::{first_peer, peer_of, serve, serve_peer, tell_of_ways};
use crate::ways::Ways;
use crate::words::Words;
use ec_map::Item;
use ec_ring::{Ring, Weather};
use ec_services::Peer;
use std::alloc::Global;

/// A master's work and cycles, its ports, and the slave with which it exchanges mails.
#[derive(Drop)]
pub struct Master {
    cycles: Cycles,
    ways: Ways,
    peer: Peer,
}

impl Master {
    /// A master that has done nothing.
    pub fn new(alloc: Global) -> Master {
        Master {
            cycles: Cycles::new(alloc),
            ways: Ways::new(alloc),
            peer: first_peer(),
        }
    }

    /// Frames travel over the ring from now on.
    pub fn open(&mut self) {
        self.ways.open();
    }

    /// Puts items into the work.
    pub fn push_items(&mut self, items: &[Item], answer: &mut Answer) {
        self.cycles.push_items(items, answer);
    }

    /// The next frame goes out in this weather.
    pub fn push_weather(&mut self, weather: Weather, words: &mut Words<'_>) {
        self.cycles.push_weather(weather, words);
    }

    /// The next trip of the ports goes over the ring in this weather.
    pub fn push_under(&mut self, weather: Weather, words: &mut Words<'_>) {
        self.ways.push_under(weather, words);
    }

    /// Does what a line says with the ring, and gives the ring back with whether the verb is known.
    pub fn act(
        &mut self,
        verb: &str,
        ring: Ring,
        words: &mut Words<'_>,
        answer: &mut Answer,
    ) -> (Option<Ring>, bool) {
        if self.cycles.tell(verb, words, answer)
            || self.cycles.set(verb, words)
            || self.cycles.tell_of_ring(verb, &ring, words, answer)
        {
            return (Some(ring), true);
        }
        let (ring, is_known) = self.cycles.cycle(verb, ring, words, answer);
        if is_known {
            return (Some(ring), true);
        }
        self.ways.board(ring);
        let is_known = self.set(verb, words) || self.serve(verb, words, answer);
        (self.ways.land(), is_known)
    }

    /// Verbs that set the ports and the peer: `peer PEER`, `forget`, which forgets the trips that were made,
    /// and what trips meet with.
    fn set(&mut self, verb: &str, words: &mut Words<'_>) -> bool {
        match verb {
            "peer" => self.peer = peer_of(words),
            "forget" => self.ways.forget(words.alloc()),
            _ => return self.ways.set(verb, words),
        }
        true
    }

    /// Verbs that use the ports: `cycle COUNT..`, the services, and what is read of them.
    fn serve(&mut self, verb: &str, words: &mut Words<'_>, answer: &mut Answer) -> bool {
        match verb {
            "cycle" => self.cycles.run(&mut self.ways, words, answer),
            "peer_counter" => answer.put(self.peer.counter),
            _ => {
                return tell_of_ways(verb, &self.ways, words, answer)
                    || serve(verb, &mut self.ways, words, answer)
                    || serve_peer(verb, &mut self.ways, &mut self.peer, words, answer);
            }
        }
        true
    }
}
