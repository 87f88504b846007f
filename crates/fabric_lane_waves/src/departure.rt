//! Departures, the places of a wave on lanes. By which port one goes follows from the LID.

ghost use Rattle.std.specs.Prelude.{◌≡◌, ◌<◌, ◌≤◌, ◌*◌, ◌^◌};
ghost use Rattle.fabric_lane_waves.specs.LaneSteps.{departure_place};

/// What goes out of a switch on a lane, with a service level.
#[derive(Clone, Copy)]
pub struct Departure {
    /// The service level, from 0 to 15.
    pub level: usize,
    /// The place of the switch.
    pub switch: usize,
    /// The lane on which it goes out.
    pub lane: usize,
}

/// The place of a departure, if there are so many switches and lanes: by level, then by switch, then by lane.
#[inline]
pub fn place_of(switches: usize, lanes: usize, departure: Departure) -> usize
    requires level { departure.level < 16 }
    requires switches { switches ≤ 2 ^ 14 }
    requires switch { departure.switch < switches }
    requires lanes { lanes ≤ 15 }
    requires lane { departure.lane < lanes }
    ensures { result ≡ departure_place switches lanes departure.level departure.switch departure.lane }
{
    (departure.level * switches + departure.switch) * lanes + departure.lane
}

/// The departure of a place.
#[inline]
pub fn departure_at(switches: usize, lanes: usize, place: usize) -> Departure
    requires { place < 16 * switches * lanes }
    ensures place { place ≡ departure_place switches lanes result.level result.switch result.lane }
    ensures switch { result.switch < switches }
    ensures lane { result.lane < lanes }
    ensures level { result.level < 16 }
{
    let row = place / lanes;
    Departure {
        level: row / switches,
        switch: row % switches,
        lane: place % lanes,
    }
}
