ghost use Rattle.std.specs.Prelude.{◌≡◌, length};
ghost use Rattle.streams.specs.Draw.{Owned};
ghost use Rattle.encoding.specs.Scene.{meaning};
ghost use Rattle.page.specs.Pack.{too_long, pack_answer, pack_buffer};

use crate::layout::{Layout, SceneBufferSizes};
use crate::refusal::TooLong;
use crate::runs::glyph_runs;
use crate::writers::put_page;
use encoding::Encoding;
use streams::{LateWords, count_inserted};
use supply::GlyphSupply;

// The longest page.
const MAX_LENGTH: u64 = 1_073_741_824;

// The refusal of a page that does not fit.
fn too_long(needed: u64, room: usize) -> Option<TooLong>
    ensures { result ≡ too_long needed room }
{
    if needed > MAX_LENGTH || needed > room as u64 {
        return Some(TooLong { needed });
    }
    None
}

// Packs a page and answers its layout and length; one that does not fit leaves the buffer as it was.
pub fn pack_page<G: GlyphSupply, L: LateWords>(
    encoding: &Encoding,
    supply: &G,
    late: &L,
    packed: &mut [u8],
) -> Result<(Layout, usize), TooLong>
    requires { Owned (L.LateWords.late late.now) 0 (meaning encoding.now).patches }
    ensures answer { result ≡ pack_answer (G.GlyphSupply.meaning supply.now) (meaning encoding.now) (length packed.old) }
    ensures bytes { packed.new ≡ pack_buffer (G.GlyphSupply.meaning supply.now) (L.LateWords.late late.now) (meaning encoding.now) packed.old }
{
    let inserted = count_inserted(supply, glyph_runs(encoding));
    let sizes = SceneBufferSizes::new(encoding, inserted);
    if let Some(refusal) = too_long(sizes.buffer_size(), packed.len()) {
        return Err(refusal);
    }
    let length = put_page(supply, late, encoding, packed);
    Ok((Layout::new(encoding, inserted, sizes), length))
}
