ghost use Rattle.std.specs.Prelude.{◌≡◌, ◌+◌, ◌*◌, ◌≤◌, ◌++◌, length, replicate};
ghost use Rattle.byte_writers.specs.Bytes.{words_bytes};
ghost use Rattle.byte_writers.specs.Put.{Put};
ghost use Rattle.byte_writers.specs.Wrote.{Wrote};
ghost use Rattle.streams.specs.Draw.{Owned};
ghost use Rattle.encoding.specs.Scene.{meaning};
ghost use Rattle.page.specs.Page.{path_tag_stream, page_of};
ghost use Rattle.page.specs.Layout.{inserted_by, sizes_with, page_length};

use crate::runs::glyph_runs;
use byte_writers::Writer;
use draw::{DrawTag, PathTag};
use encoding::Encoding;
use streams::{
    LateWords, PathDataStream, PathTagStream, StyleStream, TransformStream, put_draw_data,
    put_entry_stream,
};
use supply::GlyphSupply;

// The path tags, a path for each open clip, and the padding.
fn put_path_tags<G: GlyphSupply>(supply: &G, encoding: &Encoding, writer: &mut Writer<'_>)
    requires start { writer.old.at ≡ 0 }
    requires space { (sizes_with (inserted_by (G.GlyphSupply.meaning supply.now) (meaning encoding.now)) (meaning encoding.now)).path_tag_padded ≤ length writer.old.out.now }
    ensures { Wrote writer.old (path_tag_stream (G.GlyphSupply.meaning supply.now) (meaning encoding.now)) writer.new }
{
    let runs = glyph_runs(encoding);
    put_entry_stream(
        &PathTagStream { supply },
        writer,
        encoding.path_tags(),
        runs,
    );
    let open_clips = encoding.counts().n_open_clips as usize;
    writer.put_repeated(open_clips, PathTag::PATH);
    let closed = writer.at();
    writer.put_repeated(closed.next_multiple_of(1024) - closed, 0u8);
}

// The draw tags, and an end for each open clip.
fn put_draw_tags(writer: &mut Writer<'_>, draw_tags: &[u32], open_clips: u32)
    requires { writer.old.at + 4 * (length draw_tags.now + open_clips) ≤ length writer.old.out.now }
    ensures { Wrote writer.old (words_bytes (draw_tags.now ++ replicate open_clips 0x21)) writer.new }
{
    writer.put_all(draw_tags);
    writer.put_repeated(open_clips as usize, DrawTag::END_CLIP);
}

// The six streams, one after the other.
pub(crate) fn put_page<G: GlyphSupply, L: LateWords>(
    supply: &G,
    late: &L,
    encoding: &Encoding,
    out: &mut [u8],
) -> usize
    requires owned { Owned (L.LateWords.late late.now) 0 (meaning encoding.now).patches }
    requires space { page_length (G.GlyphSupply.meaning supply.now) (meaning encoding.now) ≤ length out.old }
    ensures { Put out.old 0 (page_of (G.GlyphSupply.meaning supply.now) (L.LateWords.late late.now) (meaning encoding.now)) result out.new }
{
    let runs = glyph_runs(encoding);
    let open_clips = encoding.counts().n_open_clips;
    let mut writer = Writer::new(out, 0);
    put_path_tags(supply, encoding, &mut writer);
    put_entry_stream(
        &PathDataStream { supply },
        &mut writer,
        encoding.path_data(),
        runs,
    );
    put_draw_tags(&mut writer, encoding.draw_tags(), open_clips);
    put_draw_data(late, &mut writer, encoding.draw_data(), encoding.patches());
    put_entry_stream(
        &TransformStream { supply },
        &mut writer,
        encoding.transforms(),
        runs,
    );
    put_entry_stream(
        &StyleStream { supply },
        &mut writer,
        encoding.styles(),
        runs,
    );
    writer.at()
}
