ghost use Rattle.streams.specs.Kinds.{tags_kind, data_kind, transforms_kind, styles_kind};

use crate::entry_stream::EntryStream;
use crate::glyphs::brush_transform;
use crate::path_data::PathDataStream;
use crate::path_tags::PathTagStream;
use crate::run_stream::RunStream;
use crate::styles::StyleStream;
use crate::transforms::TransformStream;
use byte_writers::{Entry, Writer};
use draw::PathTag;
use math::Transform;
use records::{Glyph, GlyphRun, StreamOffsets, Style};
use supply::GlyphSupply;

// The path tags, of any glyph supply.
#[derive(Clone, Copy, Drop)]
pub struct PathTags;

impl RunStream for PathTags {
    type Item = u8;

    ghost kind = { tags_kind };

    fn place(offsets: &StreamOffsets) -> usize {
        offsets.path_tags
    }

    // A transform tag and the outline's tags.
    fn put_glyph<G: GlyphSupply>(
        supply: &G,
        writer: &mut Writer<'_>,
        run: &GlyphRun,
        glyph: &Glyph,
    ) {
        PathTagStream { supply }.put_glyph(writer, run, glyph);
    }

    // A transform tag and a path tag.
    fn put_close(writer: &mut Writer<'_>, _run: &GlyphRun) {
        writer.put_all(&[PathTag::TRANSFORM, PathTag::PATH]);
    }
}

// The path data, of any glyph supply.
#[derive(Clone, Copy, Drop)]
pub struct PathData;

impl RunStream for PathData {
    type Item = u32;

    ghost kind = { data_kind };

    fn place(offsets: &StreamOffsets) -> usize {
        offsets.path_data
    }

    fn put_glyph<G: GlyphSupply>(
        supply: &G,
        writer: &mut Writer<'_>,
        run: &GlyphRun,
        glyph: &Glyph,
    ) {
        PathDataStream { supply }.put_glyph(writer, run, glyph);
    }

    fn put_close(_writer: &mut Writer<'_>, _run: &GlyphRun) {
        // Words are put for glyphs alone.
    }
}

// The transforms, of any glyph supply.
#[derive(Clone, Copy, Drop)]
pub struct Transforms;

impl RunStream for Transforms {
    type Item = Transform;

    ghost kind = { transforms_kind };

    fn place(offsets: &StreamOffsets) -> usize {
        offsets.transforms
    }

    fn put_glyph<G: GlyphSupply>(
        _supply: &G,
        writer: &mut Writer<'_>,
        run: &GlyphRun,
        glyph: &Glyph,
    ) {
        TransformStream { supply: _supply }.put_glyph(writer, run, glyph);
    }

    fn put_close(writer: &mut Writer<'_>, run: &GlyphRun) {
        brush_transform(run).put(writer);
    }
}

// The styles, of any glyph supply.
#[derive(Clone, Copy, Drop)]
pub struct Styles;

impl RunStream for Styles {
    type Item = Style;

    ghost kind = { styles_kind };

    fn place(offsets: &StreamOffsets) -> usize {
        offsets.styles
    }

    fn put_glyph<G: GlyphSupply>(
        supply: &G,
        writer: &mut Writer<'_>,
        run: &GlyphRun,
        glyph: &Glyph,
    ) {
        StyleStream { supply }.put_glyph(writer, run, glyph);
    }

    fn put_close(_writer: &mut Writer<'_>, _run: &GlyphRun) {
        // Styles are put for glyphs alone.
    }
}
