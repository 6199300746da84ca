ghost use Rattle.std.specs.Prelude.{◌≡◌, length};
ghost use Rattle.encoding.specs.Scene.{meaning};
ghost use Rattle.page.specs.Plain.{plain_answer, plain_buffer};

use crate::layout::Layout;
use crate::nothing::{NoLate, NoSupply};
use crate::pack::pack_page;
use crate::refusal::PackRefusal;
use encoding::Encoding;

// Resolves and packs an encoding that contains only paths with solid color fills, into the start of `packed`.
// Answers the layout and the length of the page; a refusal leaves `packed` as it was.
pub fn resolve_solid_paths_only(
    encoding: &Encoding,
    packed: &mut [u8],
) -> Result<(Layout, usize), PackRefusal>
    ensures answer { result ≡ plain_answer (meaning encoding.now) (length packed.old) }
    ensures bytes { packed.new ≡ plain_buffer (meaning encoding.now) packed.old }
{
    if !encoding.patches().is_empty() {
        return Err(PackRefusal::LateBound);
    }
    Ok(pack_page(encoding, &NoSupply, &NoLate, packed)?)
}
