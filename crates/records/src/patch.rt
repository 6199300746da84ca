use crate::refusal::Refusal;

// How a gradient goes on past its ends.
#[derive(Clone, Copy, Debug, PartialEq, Eq, Hash)]
pub enum Extend {
    Pad,
    Repeat,
    Reflect,
}

impl Extend {
    ghost use Rattle.std.specs.Prelude.{◌≡◌, ◌≤◌};
    ghost use Rattle.records.specs.Numbers.{extend_of};

    pub fn from_number(n: u32) -> Extend
        requires { n ≤ 2 }
        ensures { result ≡ extend_of n }
    {
        match n {
            0 => Extend::Pad,
            1 => Extend::Repeat,
            2 => Extend::Reflect,
            _ => unreachable(),
        }
    }
}

impl TryFrom<u32> for Extend {
    ghost use Rattle.std.specs.Prelude.{◌≡◌};
    ghost use Rattle.records.specs.Numbers.{extend_from};

    type Error = Refusal;

    ghost try_from_gives = { λ n r. r ≡ extend_from n };

    fn try_from(n: u32) -> Result<Extend, Refusal> {
        if n > 2 {
            return Err(Refusal::OutOfRange);
        }
        Ok(Extend::from_number(n))
    }
}

impl From<Extend> for u32 {
    ghost use Rattle.std.specs.Prelude.{◌≡◌};
    ghost use Rattle.records.specs.Numbers.{extend_number};

    ghost from_gives = { λ extend n. n ≡ extend_number extend };

    fn from(extend: Extend) -> u32 {
        match extend {
            Extend::Pad => 0,
            Extend::Repeat => 1,
            Extend::Reflect => 2,
        }
    }
}

// The two points of a linear gradient.
#[derive(Clone, Copy, Drop)]
pub struct DrawLinearGradient {
    pub p0: [f32; 2],
    pub p1: [f32; 2],
}

impl DrawLinearGradient {
    ghost use Rattle.std.specs.Prelude.{◌≡◌};
    ghost use Rattle.records.specs.Finite.{points_finite};

    pub fn is_finite(&self) -> bool
        ensures { result ≡ points_finite self.now }
    {
        self.p0.iter().all(|x| x.is_finite()) && self.p1.iter().all(|x| x.is_finite())
    }
}

// What is bound late: the draw word of a ramp, the outlines of a run, the two draw words of a picture.
#[derive(Clone, Copy, Debug, PartialEq, Eq, Hash)]
pub enum Patch {
    Ramp {
        draw_data_offset: usize,
        stops_start: usize,
        stops_end: usize,
        extend: Extend,
    },
    GlyphRun {
        index: usize,
    },
    Image {
        draw_data_offset: usize,
        id: u64,
        width: u32,
        height: u32,
    },
}
