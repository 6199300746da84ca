ghost use Rattle.std.specs.Prelude.{◌≡◌, ◌^◌, ◌<◌, ◌≤◌, length, sum_by};
ghost use Rattle.draw.specs.Tags.{info_size};
ghost use Rattle.streams.specs.Count.{AtMost};
ghost use Rattle.encoding.specs.Scene.{meaning};
ghost use Rattle.page.specs.Layout.{sizes_with, buffer_size, layout_with};

use draw::DrawTag;
use encoding::Encoding;
use streams::Inserted;

// How many bytes each stream of a page has.
#[derive(Clone, Copy, Debug)]
pub(crate) struct SceneBufferSizes {
    path_tag_padded: u64,
    path_data: u64,
    draw_tags: u64,
    draw_data: u64,
    transforms: u64,
    styles: u64,
}

impl SceneBufferSizes {
    pub(crate) fn new(encoding: &Encoding, inserted: Inserted) -> SceneBufferSizes
        requires { AtMost 1000000 65537000002000000 inserted }
        ensures value { result ≡ sizes_with inserted (meaning encoding.now) }
        ensures small { buffer_size result < 2 ^ 64 }
    {
        let open = encoding.counts().n_open_clips as u64;
        let tags = encoding.path_tags().len() as u64 + inserted.path_tags + open;
        SceneBufferSizes {
            path_tag_padded: tags.next_multiple_of(1024),
            path_data: 4 * (encoding.path_data().len() as u64 + inserted.path_data),
            draw_tags: 4 * (encoding.draw_tags().len() as u64 + open),
            draw_data: 4 * encoding.draw_data().len() as u64,
            transforms: 24 * (encoding.transforms().len() as u64 + inserted.transforms),
            styles: 8 * (encoding.styles().len() as u64 + inserted.styles),
        }
    }

    pub(crate) fn buffer_size(&self) -> u64
        requires { buffer_size self.now < 2 ^ 64 }
        ensures { result ≡ buffer_size self.now }
    {
        self.path_tag_padded
            + self.path_data
            + self.draw_tags
            + self.draw_data
            + self.transforms
            + self.styles
    }
}

// Layout of a packed encoding. Bases count words of four bytes.
#[derive(Clone, Copy, Debug, PartialEq, Eq)]
pub struct Layout {
    // Number of draw objects.
    pub n_draw_objects: u32,
    // Number of paths.
    pub n_paths: u32,
    // Number of clips.
    pub n_clips: u32,
    // Start of binning data.
    pub bin_data_start: u32,
    // Start of path tag stream.
    pub path_tag_base: u32,
    // Start of path data stream.
    pub path_data_base: u32,
    // Start of draw tag stream.
    pub draw_tag_base: u32,
    // Start of draw data stream.
    pub draw_data_base: u32,
    // Start of transform stream.
    pub transform_base: u32,
    // Start of style stream.
    pub style_base: u32,
}

impl Layout {
    pub(crate) fn new(encoding: &Encoding, inserted: Inserted, sizes: SceneBufferSizes) -> Layout
        requires few { AtMost 1000000 65537000002000000 inserted }
        requires short { buffer_size sizes ≤ 1073741824 }
        ensures { result ≡ layout_with inserted (meaning encoding.now) sizes }
    {
        let counts = encoding.counts();
        let n_paths = counts.n_paths + inserted.runs + counts.n_open_clips;
        let path_data = sizes.path_tag_padded;
        let draw_tags = path_data + sizes.path_data;
        let draw_data = draw_tags + sizes.draw_tags;
        let transforms = draw_data + sizes.draw_data;
        let styles = transforms + sizes.transforms;
        Layout {
            n_draw_objects: n_paths,
            n_paths,
            n_clips: counts.n_clips + counts.n_open_clips,
            bin_data_start: bin_data_start(encoding.draw_tags()),
            path_tag_base: 0,
            path_data_base: (path_data / 4) as u32,
            draw_tag_base: (draw_tags / 4) as u32,
            draw_data_base: (draw_data / 4) as u32,
            transform_base: (transforms / 4) as u32,
            style_base: (styles / 4) as u32,
        }
    }
}

// Bin data follows draw info, of which each tag takes some words.
fn bin_data_start(draw_tags: &[u32]) -> u32
    requires { length draw_tags.now ≤ 1000000 }
    ensures { result ≡ sum_by info_size draw_tags.now }
{
    draw_tags.iter().map(|tag| DrawTag(*tag).info_size()).sum()
}
