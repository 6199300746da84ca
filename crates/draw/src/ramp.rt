ghost use Rattle.std.specs.Prelude.{◌≡◌, ◌++◌, length, take, drop};
ghost use Rattle.draw.specs.Ramp.{mixed, mix, between, raised, last_shared, color_at, sample_of, samples};

use crate::color::{Color, ColorStop};

// How many samples a gradient has.
pub const N_SAMPLES: usize = 512;

fn mixed_channel(c: f32, d: f32, t: f32) -> f32
    ensures { result ≡ mixed c d t }
{
    c + (d - c) * t
}

fn mixed_color(c: Color, d: Color, t: f32) -> Color
    ensures { result ≡ mix c d t }
{
    Color {
        r: mixed_channel(c.r, d.r, t),
        g: mixed_channel(c.g, d.g, t),
        b: mixed_channel(c.b, d.b, t),
        a: mixed_channel(c.a, d.a, t),
    }
}

// The colour at `u` between `c` at `earlier` and `d` at `later`.
fn color_between(u: f32, earlier: f32, c: Color, later: f32, d: Color) -> Color
    ensures { result ≡ between u earlier c later d }
{
    let width = later - earlier;
    if width < 1e-9 {
        return d;
    }
    mixed_color(c, d, (u - earlier) / width)
}

// An offset below an earlier one counts as that.
fn effective_offset(earlier: f32, offset: f32) -> f32
    ensures { result ≡ raised earlier offset }
{
    if offset < earlier { earlier } else { offset }
}

// The colour of the last of the stops that share the offset `u`, or `color` if none of `following` does.
// Effective offsets never fall, so these stops are neighbours.
fn last_shared(u: f32, offset: f32, following: &[ColorStop], color: Color) -> Color
    ensures { result ≡ last_shared u offset following.now color }
{
    let mut effective = offset;
    let mut last = color;
    for stop in following {
        effective = effective_offset(effective, stop.offset);
        if effective != u {
            break;
        }
        last = stop.color;
    }
    last
}

// The colour at `u`, which may lie before the first offset or past the last.
pub fn color_at(stops: &[ColorStop], u: f32) -> Color
    ensures { result ≡ color_at u stops.now }
{
    let [first, following @ ..] = stops else {
        return Color::default();
    };
    if u <= first.offset {
        return last_shared(u, first.offset, following, first.color);
    }
    let mut earlier = first.offset;
    let mut color = first.color;
    let mut following = following;
    while let [next, rest @ ..] = following {
        let later = effective_offset(earlier, next.offset);
        if u > later {
            earlier = later;
            color = next.color;
            following = rest;
        } else {
            let mix = color_between(u, earlier, color, later, next.color);
            return last_shared(u, later, rest, mix);
        }
    }
    color
}

// The word of sample `i`, which is read at `i` / 511; past sample 511 that lies above 1.
pub fn sample(stops: &[ColorStop], i: u16) -> u32
    ensures { result ≡ sample_of stops.now i }
{
    color_at(stops, i as f32 / 511.0).to_word()
}

// Writes the samples, as many as the row has space for. What the row has past them stays.
pub fn write_row(row: &mut [u32], stops: &[ColorStop])
    ensures is { row.new ≡ take (length row.old) (samples stops.now) ++ drop 512 row.old }
    ensures whole { length row.old ≡ 512 → row.new ≡ samples stops.now }
{
    let count = row.len().min(N_SAMPLES);
    // By index, since nothing is known of what is written through `iter_mut().enumerate()`.
    for i in 0..count {
        row[i] = sample(stops, i as u16);
    }
}
