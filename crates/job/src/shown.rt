use crate::separated::write_separated;
use crate::summary::Summary;
use encoding::Encoding;
use math::Transform;
use records::{GlyphRun, Patch};
use std::fmt;
use std::num::f32_to_bits_with_nan;

// A scene, to be printed.
#[derive(Clone, Copy, Drop)]
pub struct Shown<'a> {
    pub scene: &'a Encoding,
}

#[derive(Clone, Copy, Drop)]
struct ShownPatch<'a>(&'a Patch);

// The checksum of a transform, if there is one.
#[derive(Clone, Copy, Drop)]
struct ShownTransform(Option<Transform>);

#[derive(Clone, Copy, Drop)]
struct ShownRun<'a>(&'a GlyphRun);

impl fmt::Display for ShownPatch<'_> {
    fn fmt<W: fmt::Write>(&self, f: &mut fmt::Formatter<W>) -> fmt::Result {
        match *self.0 {
            Patch::Ramp {
                draw_data_offset,
                stops_start,
                stops_end,
                extend,
            } => {
                let extend = u32::from(extend);
                write!(f, "g/{draw_data_offset}/{stops_start}/{stops_end}/{extend}")
            }
            Patch::GlyphRun { index } => write!(f, "r/{index}"),
            Patch::Image {
                draw_data_offset,
                id,
                width,
                height,
            } => { write!(f, "p/{draw_data_offset}/{id}/{width}/{height}") }
        }
    }
}

impl fmt::Display for ShownTransform {
    fn fmt<W: fmt::Write>(&self, f: &mut fmt::Formatter<W>) -> fmt::Result {
        match self.0 {
            Some(transform) => write!(f, "{:08x}", Summary::of(&[transform]).crc),
            None => f.write_str("-"),
        }
    }
}

impl fmt::Display for ShownRun<'_> {
    fn fmt<W: fmt::Write>(&self, f: &mut fmt::Formatter<W>) -> fmt::Result {
        let attributes = self.0.attributes;
        let size = f32_to_bits_with_nan(attributes.font_size);
        write!(f, "{}/{}/{size:08x}", attributes.font, attributes.style)?;
        write!(f, "/{}/{}", self.0.glyphs_start, self.0.glyphs_end)?;
        let transforms = [
            ShownTransform(Some(attributes.transform)),
            ShownTransform(attributes.glyph_transform),
            ShownTransform(attributes.brush_transform),
        ];
        let offsets = self.0.stream_offsets;
        let offsets = [
            offsets.path_tags,
            offsets.path_data,
            offsets.draw_tags,
            offsets.draw_data,
            offsets.transforms,
            offsets.styles,
        ];
        f.write_str("/")?;
        write_separated(transforms.iter(), "/", f)?;
        f.write_str("/")?;
        write_separated(offsets.iter(), "/", f)
    }
}

fn show_streams<W: fmt::Write>(scene: &Encoding, f: &mut fmt::Formatter<W>) -> fmt::Result {
    let path_tags = Summary::of_bytes(scene.path_tags());
    let path_data = Summary::of(scene.path_data());
    let draw_tags = Summary::of(scene.draw_tags());
    let draw_data = Summary::of(scene.draw_data());
    let transforms = Summary::of(scene.transforms());
    let styles = Summary::of(scene.styles());
    write!(
        f,
        "path_tags={path_tags} path_data={path_data} draw_tags={draw_tags}"
    )?;
    write!(
        f,
        " draw_data={draw_data} transforms={transforms} styles={styles}"
    )
}

fn show_resources<W: fmt::Write>(scene: &Encoding, f: &mut fmt::Formatter<W>) -> fmt::Result {
    f.write_str(" patches=")?;
    write_separated(scene.patches().iter().map(ShownPatch), ",", f)?;
    let color_stops = Summary::of(scene.color_stops());
    let glyphs = Summary::of(scene.glyphs());
    write!(f, " color_stops={color_stops} glyphs={glyphs} runs=")?;
    write_separated(scene.glyph_runs().iter().map(ShownRun), ",", f)
}

impl fmt::Display for Shown<'_> {
    fn fmt<W: fmt::Write>(&self, f: &mut fmt::Formatter<W>) -> fmt::Result {
        show_streams(self.scene, f)?;
        show_resources(self.scene, f)?;
        let counts = self.scene.counts();
        write!(
            f,
            " paths={} segments={} clips={} open_clips={}",
            counts.n_paths, counts.n_path_segments, counts.n_clips, counts.n_open_clips
        )?;
        write!(f, " flags={:08x}", self.scene.flags())
    }
}
