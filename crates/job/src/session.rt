use crate::failure::Failure;
use crate::outcome::Outcome;
use crate::packed::Packed;
use crate::shown::Shown;
use crate::summary::Summary;
use commands::{
    AppendCommand, GradientCommand, LayCommand, PictureCommand, PlainCommand, Reason, RunCommand,
    SceneCommand, Stream,
};
use crc::checksum;
use encoding::Encoding;
use job_text::Name;
use page::{Layout, PageReader, resolve_solid_paths_only};
use std::alloc::Global;
use std::collections::BTreeMap;

// The longest buffer that a job packs into.
const MOST_BYTES: u64 = 1_073_741_824;

// The last page packed.
#[derive(Drop)]
struct Page {
    bytes: Vec<u8>,
    layout: Layout,
}

// What the commands of a job have made so far.
#[derive(Drop)]
pub struct Session {
    heap: Global,
    scenes: BTreeMap<Name, Encoding>,
    page: Option<Page>,
}

impl Session {
    pub fn new(heap: Global) -> Session {
        Session {
            heap,
            scenes: BTreeMap::new(heap),
            page: None,
        }
    }

    fn find(&self, name: Name) -> Result<&Encoding, Reason> {
        self.scenes.get(&name).ok_or(Reason::NoScene(name))
    }

    fn find_mut(&mut self, name: Name) -> Result<&mut Encoding, Reason> {
        self.scenes.get_mut(&name).ok_or(Reason::NoScene(name))
    }

    pub fn scene(&mut self, c: &SceneCommand) -> Result<Outcome<'static>, Failure> {
        if self.scenes.contains_key(&c.name) {
            return Err(Failure::Fault(Reason::MadeTwice(c.name)));
        }
        let scene = Encoding::make(self.heap, c.spaces)?;
        self.scenes.insert(c.name, scene)?;
        Ok(Outcome::Done)
    }

    pub fn lay(&mut self, c: &LayCommand) -> Result<Outcome<'static>, Failure> {
        let scene = self.find_mut(c.scene)?;
        scene.lay(c.streams(), c.counts, c.flags)?;
        Ok(Outcome::Done)
    }

    pub fn gradient(&mut self, c: &GradientCommand) -> Result<Outcome<'static>, Failure> {
        let scene = self.find_mut(c.scene)?;
        scene.encode_linear_gradient(c.gradient, c.stops.as_slice(), c.alpha, c.extend)?;
        Ok(Outcome::Done)
    }

    pub fn picture(&mut self, c: &PictureCommand) -> Result<Outcome<'static>, Failure> {
        let scene = self.find_mut(c.scene)?;
        scene.encode_image(c.image, c.sampler, c.alpha)?;
        Ok(Outcome::Done)
    }

    pub fn glyph_run(&mut self, c: &RunCommand) -> Result<Outcome<'static>, Failure> {
        let scene = self.find_mut(c.scene)?;
        scene.encode_glyph_run(c.attributes, c.glyphs.as_slice())?;
        Ok(Outcome::Done)
    }

    // The scene is taken out while the other is lent; a fault in between ends the job.
    pub fn append(&mut self, c: &AppendCommand) -> Result<Outcome<'static>, Failure> {
        if c.scene == c.other {
            return Err(Failure::Fault(Reason::AppendedToItself(c.scene)));
        }
        let mut scene = self
            .scenes
            .remove(&c.scene)
            .ok_or(Reason::NoScene(c.scene))?;
        let appended = scene.append(self.find(c.other)?, c.transform);
        self.scenes.insert(c.scene, scene)?;
        appended?;
        Ok(Outcome::Done)
    }

    pub fn show(&self, name: Name) -> Result<Outcome<'_>, Failure> {
        let scene = self.find(name)?;
        Ok(Outcome::Shown(Shown { scene }))
    }

    pub fn plain(&mut self, c: &PlainCommand) -> Result<Outcome<'static>, Failure> {
        let scene = self.find(c.scene)?;
        let len = c.buffer.min(MOST_BYTES);
        let mut bytes = vec![in self.heap; 0xa5u8; len as usize]?;
        let (layout, length) = resolve_solid_paths_only(scene, bytes.as_mut_slice())?;
        let (page, rest) = bytes.as_slice().split_at(length);
        let packed = Packed {
            length,
            layout,
            page: checksum(page),
            rest: checksum(rest),
        };
        bytes.truncate(length);
        self.page = Some(Page { bytes, layout });
        Ok(Outcome::Packed(packed))
    }

    pub fn view(&self, stream: Stream) -> Result<Outcome<'static>, Failure> {
        let page = self.page.as_ref().ok_or(Reason::NoPage)?;
        let reader = PageReader::new(page.bytes.as_slice(), page.layout)?;
        let part = match stream {
            Stream::PathTags => reader.path_tags(),
            Stream::PathData => reader.path_data(),
            Stream::DrawTags => reader.draw_tags(),
            Stream::DrawData => reader.draw_data(),
            Stream::Transforms => reader.transforms(),
            Stream::Styles => reader.styles(),
        };
        Ok(Outcome::Viewed(Summary::of_bytes(part)))
    }
}
