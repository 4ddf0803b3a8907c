// A region of the glass, whatever it is: all of it, cells, a half of an image or a graphic byte; painted and counted.
#![tactic(auto)]

ghost use Rattle.std.specs.Prelude.{◌≡◌, ◌≤◌};
ghost use Rattle.controller.specs.declared.Region.TheVariants.{Cells};
ghost use Rattle.picture.specs.Picture.{fonts_in, memories_in, wide};
ghost use Rattle.repaint.specs.Repaint.{ViewWithin, painting, repaint, CellWithin, RegionWithin, most_of, same_cell};

use controller::Region;
use controller::places::byte_column;
use drawing::paint_whole;
use picture::Scene;
use repaint::cells::paint_cell;
use repaint::halves::{paint_glyph_half, paint_graphic_byte};

// Whether two cells are one: then it is painted and counted once.
fn same_cell(a: Option<u8>, b: Option<u8>) -> bool
    ensures { result ≡ same_cell a b }
{
    a.is_some() && a == b
}

fn paint_cells(scene: &Scene, a: Option<u8>, b: Option<u8>, frame: &mut [u8; 1024]) -> u32
    requires { ViewWithin scene.now.look.view × CellWithin a × CellWithin b }
    ensures { painting result frame.new ≡ repaint wide (fonts_in scene.now) (memories_in scene.now) scene.now.look (Cells a b) frame.old }
{
    let first = paint_cell(scene, a, frame);
    if same_cell(a, b) {
        return first;
    }
    first + paint_cell(scene, b, frame)
}

// Paints a region of the glass, and answers how many bytes it has.
pub fn paint(scene: &Scene, region: Region, frame: &mut [u8; 1024]) -> usize
    requires { ViewWithin scene.now.look.view × RegionWithin region }
    ensures frame_after { painting result frame.new ≡ repaint wide (fonts_in scene.now) (memories_in scene.now) scene.now.look region frame.old }
    ensures most { result ≤ most_of region }
{
    match region {
        Region::Nothing => 0,
        Region::Whole => {
            paint_whole(scene, frame);
            1024
        }
        Region::Cells(a, b) => paint_cells(scene, a, b, frame) as usize,
        Region::GlyphHalf { word, low } => paint_glyph_half(scene, word, low, frame) as usize,
        Region::GraphicHalf { row, column, low } => {
            let at = byte_column(column as u32, low);
            paint_graphic_byte(scene, row as u32, at, frame) as usize
        }
    }
}
