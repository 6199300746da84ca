ghost use Rattle.std.specs.Prelude.{◌≡◌};
ghost use Rattle.streams_tests.specs.Letters.{letters, glyph, run, both, runs_in_fonts, numbers_kind};

use byte_writers::Writer;
use math::Transform;
use records::{Glyph, GlyphRun, RunAttributes, StreamOffsets, Style};
use std::test::*;
use streams::{GlyphRuns, PathData, PathTags, RunStream, Styles, Transforms, put_stream};
use supply::{GlyphSupply, Outline, SessionKey};

// Glyph 1 of font 0.
#[derive(Drop)]
struct Letters;

impl GlyphSupply for Letters {
    ghost meaning = { λ _. letters };

    fn session(&self, key: SessionKey) -> bool {
        key.font == 0
    }

    fn outline(&self, _key: SessionKey, id: u32) -> Option<Outline<'_>> {
        if id != 1 {
            return None;
        }
        Some(Outline {
            tags: &[0x09, 0x0a],
            words: &[7, 8, 9],
            styles: &[Style {
                flags_and_miter_limit: 4,
                line_width: 5,
            }],
        })
    }
}

// The numbers of a run's glyphs, with a 0 after them.
struct Numbers;

impl RunStream for Numbers {
    type Item = u32;

    ghost kind = { numbers_kind };

    fn place(offsets: &StreamOffsets) -> usize {
        offsets.draw_data
    }

    fn put_glyph<G: GlyphSupply>(
        _supply: &G,
        writer: &mut Writer<'_>,
        _run: &GlyphRun,
        glyph: &Glyph,
    ) {
        writer.put_all(&[glyph.id]);
    }

    fn put_close(writer: &mut Writer<'_>, _run: &GlyphRun) {
        writer.put_all(&[0_u32]);
    }
}

fn glyph(id: u32) -> Glyph
    ensures { result ≡ glyph id }
{
    Glyph { id, x: 0.0, y: 1.0 }
}

fn run(font: u32) -> GlyphRun
    ensures { result ≡ run font }
{
    GlyphRun {
        attributes: RunAttributes {
            font,
            style: 0,
            font_size: 1.0,
            transform: Transform::identity(),
            glyph_transform: None,
            brush_transform: None,
        },
        glyphs_start: 0,
        glyphs_end: 2,
        stream_offsets: StreamOffsets {
            path_tags: 1,
            path_data: 1,
            draw_tags: 1,
            draw_data: 1,
            transforms: 1,
            styles: 1,
        },
    }
}

// Glyphs 1 and 2, once in font 1, which has no session, and once in font 0. Glyph 2 has no outline.
#[derive(Drop)]
struct Sheet {
    glyphs: [Glyph; 2],
    runs: [GlyphRun; 2],
    ghost both: { glyphs ≡ both },
    ghost all: { runs ≡ runs_in_fonts },
}

impl Sheet {
    fn new() -> Sheet {
        Sheet {
            glyphs: [glyph(1), glyph(2)],
            runs: [run(1), run(0)],
        }
    }

    fn all(&self) -> GlyphRuns<'_>
        ensures glyphs { result.glyphs.now ≡ both }
        ensures runs { result.runs.now ≡ runs_in_fonts }
    {
        GlyphRuns {
            glyphs: &self.glyphs,
            runs: &self.runs,
        }
    }
}

#[test]
fn path_tags(rt: HostRuntime) {
    let sheet = Sheet::new();
    let mut out = [0xff; 10];
    let mut writer = Writer::new(&mut out, 0);
    put_stream::<PathTags, Letters>(&Letters, &mut writer, &[0x01, 0x02, 0x03], sheet.all());
    assert_eq!(rt; writer.at(), 9);
    assert_eq!(rt;
        out,
        [0x01, 0x20, 0x09, 0x0a, 0x20, 0x20, 0x10, 0x02, 0x03, 0xff]
    );
}

#[test]
fn path_data(rt: HostRuntime) {
    let sheet = Sheet::new();
    let mut out = [0xff; 20];
    let mut writer = Writer::new(&mut out, 0);
    put_stream::<PathData, Letters>(&Letters, &mut writer, &[1, 2], sheet.all());
    assert_eq!(rt; writer.at(), 20);
    assert_eq!(rt;
        out,
        [1, 0, 0, 0, 7, 0, 0, 0, 8, 0, 0, 0, 9, 0, 0, 0, 2, 0, 0, 0]
    );
}

#[test]
fn transforms(rt: HostRuntime) {
    let first = Transform {
        matrix: [2.0, 0.0, 0.0, 2.0],
        translation: [5.0, 6.0],
    };
    let placed = Transform {
        matrix: [1.0, 0.0, 0.0, -1.0],
        translation: [0.0, 1.0],
    };
    let sheet = Sheet::new();
    let mut out = [0xff; 96];
    let mut writer = Writer::new(&mut out, 0);
    put_stream::<Transforms, Letters>(&Letters, &mut writer, &[first], sheet.all());
    let mut want = [0; 96];
    let mut wanted = Writer::new(&mut want, 0);
    wanted.put_all(&[first, placed, placed, Transform::identity()]);
    assert_eq!(rt; out, want);
}

#[test]
fn styles(rt: HostRuntime) {
    let first = Style {
        flags_and_miter_limit: 1,
        line_width: 2,
    };
    let last = Style {
        flags_and_miter_limit: 3,
        line_width: 6,
    };
    let sheet = Sheet::new();
    let mut out = [0xff; 24];
    let mut writer = Writer::new(&mut out, 0);
    put_stream::<Styles, Letters>(&Letters, &mut writer, &[first, last], sheet.all());
    assert_eq!(rt; writer.at(), 24);
    assert_eq!(rt;
        out,
        [
            1, 0, 0, 0, 2, 0, 0, 0, 4, 0, 0, 0, 5, 0, 0, 0, 3, 0, 0, 0, 6, 0, 0, 0
        ]
    );
}

#[test]
fn own_stream(rt: HostRuntime) {
    let sheet = Sheet::new();
    let mut out = [0xff; 20];
    let mut writer = Writer::new(&mut out, 0);
    put_stream::<Numbers, Letters>(&Letters, &mut writer, &[8, 9], sheet.all());
    assert_eq!(rt; writer.at(), 20);
    assert_eq!(rt;
        out,
        [8, 0, 0, 0, 1, 0, 0, 0, 2, 0, 0, 0, 0, 0, 0, 0, 9, 0, 0, 0]
    );
}
