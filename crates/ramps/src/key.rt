ghost use Rattle.std.specs.Prelude.{◌≡◌, ◌≤◌, map, length};
ghost use Rattle.draw.specs.Color.{stop_of};

use draw::{ColorStop, N_SAMPLES, StopBits, write_row};
use fixed_vec::FixedVec;

// The stops of a gradient, at most 16.
#[derive(Clone, Copy, Default)]
pub(crate) struct Key {
    stops: FixedVec<StopBits, 16>,
}

impl Key {
    ghost use Rattle.fixed_vec.specs.Items.{items_of};
    ghost use Rattle.ramps.specs.Sheet.{samples_of};
    ghost use Rattle.ramps.specs.View.{key_of};

    pub(crate) fn new(stops: &[StopBits]) -> Key
        requires { length stops.now ≤ 16 }
        ensures { key_of result ≡ stops.now }
    {
        let mut key = FixedVec::new();
        for stop in stops {
            key.push(*stop);
        }
        Key { stops: key }
    }

    pub(crate) fn as_slice(&self) -> &[StopBits]
        ensures value { result.now ≡ key_of self.now }
        ensures few { length result.now ≤ 16 }
    {
        self.stops.as_slice()
    }

    // The samples of the gradient.
    pub(crate) fn samples(&self) -> [u32; N_SAMPLES]
        ensures { result ≡ samples_of (key_of self.now) }
    {
        let mut samples = [0; N_SAMPLES];
        write_row(&mut samples, self.to_stops().as_slice());
        samples
    }

    // The stops as numbers.
    fn to_stops(&self) -> FixedVec<ColorStop, 16>
        ensures { items_of result ≡ map stop_of (key_of self.now) }
    {
        let mut stops = FixedVec::new();
        for stop in self.as_slice() {
            stops.push(ColorStop::from(*stop));
        }
        stops
    }
}
