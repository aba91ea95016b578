//! The weathers of the frames that have not gone out.

ghost use Rattle.std.specs.Prelude.{◌≡◌};
ghost use Rattle.ec_master.specs.WeatherTrips.{behind_next, next_weather};

use ec_ring::{Links, Weather};
use std::marker::Model;

/// The weathers of the frames that have not gone out, the next one first; frames past them travel under a
/// ring's own links, copy A first. Contracts see the list.
#[derive(Drop)]
pub struct WeathersAhead<'a> {
    ahead: &'a [Weather],
}

impl<'a> Model for WeathersAhead<'a> {
    ghost use Rattle.std.specs.Prelude.{List};
    ghost use Rattle.ec_ring.specs.declared.weather.Weather.{Weather};

    ghost Value = { List Weather };

    ghost view = { λ w. w.ahead.now };
}

impl<'a> WeathersAhead<'a> {
    /// Those of all frames: frame i travels under weather i.
    pub fn new(weathers: &'a [Weather]) -> WeathersAhead<'a>
        ensures { result ≡ weathers.entry.now }
    {
        WeathersAhead { ahead: weathers }
    }

    /// The weather of the next frame, which is behind then, on a ring with these links.
    pub fn take_next(&mut self, links: Links) -> Weather
        ensures weather { result ≡ next_weather self.old links }
        ensures ahead { self.new ≡ behind_next self.old }
    {
        match self.ahead {
            [] => Weather::calm(links),
            [first, rest @ ..] => {
                self.ahead = rest;
                *first
            }
        }
    }
}
