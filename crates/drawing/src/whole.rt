// The whole picture: band by band, each the rows of the glass that show one line of text. A line's cells are looked up once.
ghost use Rattle.std.specs.Prelude.{◌≡◌, false, ◌+◌, ◌*◌, ◌-◌, ◌/◌, ◌%◌, ◌<◌, ◌≤◌, get_or};
ghost use Rattle.base.specs.Painting.{painted, everywhere, between};
ghost use Rattle.base.specs.Layout.{painted_on};
ghost use Rattle.picture.specs.Picture.{overlaid, wide, picture, fonts_in, memories_in, shown_at};
ghost use Rattle.picture.specs.Tiles.{from_tiles, in_rows, band_end};

use controller::places::row_place;
use picture::Scene;
use picture::shown::shown_row;
use tiles::lay_line;

// Row y of each tile of the line goes to row `row` of the glass.
fn hand_row(tiles: &[u8; 512], y: u32, row: u32, frame: &mut [u8; 1024])
    requires { (y < 16) × (row < 32) }
    ensures { frame.new ≡ painted (between (32 * row) (32 * row + 32) everywhere) (from_tiles tiles.now y) frame.old }
{
    // By both bytes, read before one is stored: two bytes copied as slices take seven instructions more a cell.
    for cell in 0..16u32 {
        let from = 32 * (cell as usize) + 2 * (y as usize);
        let to = row_place(row, 2 * cell);
        let left = tiles[from];
        let right = tiles[from + 1];
        frame[to] = left;
        frame[to + 1] = right;
    }
}

// The rows of the glass from `row` up to `end` show the line's rows from y on.
fn hand_out(tiles: &[u8; 512], scroll: u32, row: u32, end: u32, frame: &mut [u8; 1024])
    requires { (scroll < 256) × (row ≤ end) × (end ≤ 32) }
    ensures { frame.new ≡ painted (between (32 * row) (32 * end) everywhere) (λ i. from_tiles tiles.now ((i / 32 + scroll) % 16) i) frame.old }
{
    for r in row..end {
        hand_row(tiles, (r + scroll) % 16, r, frame);
    }
}

// The graphic bytes from `from` on over those of the frame from `to` on, if G. By counting in 32 bits: a small core's loop is shorter for it,
// and what `zip` of an `iter_mut` leaves is known to no clause.
fn overlay_if(
    graphic: &[u8; 2048],
    from: usize,
    frame: &mut [u8; 1024],
    to: usize,
    count: u32,
    on: bool,
)
    requires { (from + count ≤ 2048) × (to + count ≤ 1024) }
    ensures { frame.new ≡ painted (between to (to + count) everywhere) (λ i. overlaid on (get_or graphic.now (from + (i - to)) 0) (get_or frame.old i 0)) frame.old }
{
    if on {
        for i in 0..count {
            let k = i as usize;
            frame[to + k] ^= graphic[from + k];
        }
    }
}

// The row after those that show the same line as row `row`, which shows memory row s.
#[tactic(auto, unfolding(picture::specs::Tiles::band_end))]
fn band_end(row: u32, s: u32) -> u32
    requires { row < 32 }
    ensures within { (row < result) × (result ≤ 32) × (result + s % 16 ≤ row + 16) }
    ensures value { result ≡ band_end row s }
{
    (row + 16 - s % 16).min(32)
}

// The rows from `row` on that show the same line, painted; answers the row after them.
fn paint_band(scene: &Scene, row: u32, frame: &mut [u8; 1024]) -> u32
    requires { (scene.now.look.dark ≡ false) × (row < 32) }
    ensures within { (row < result) × (result ≤ 32) }
    ensures frame_after { frame.new ≡ painted_on wide (in_rows row result) (shown_at scene.now) frame.old }
{
    let look = scene.look;
    let scroll = look.view.scroll as u32;
    let s = shown_row(look.view, row);
    let end = band_end(row, s);
    let mut tiles = [0u8; 512];
    lay_line(scene, s / 16, &mut tiles);
    hand_out(&tiles, scroll, row, end, frame);
    let graphic = scene.graphic;
    overlay_if(
        graphic,
        row_place(s, 0),
        frame,
        row_place(row, 0),
        32 * (end - row),
        look.graphic,
    );
    end
}

// Paints every byte of the glass.
pub fn paint_whole(scene: &Scene, frame: &mut [u8; 1024])
    ensures { frame.new ≡ picture wide (fonts_in scene.now) (memories_in scene.now) scene.now.look }
{
    if scene.look.dark {
        frame.fill(0);
        return;
    }
    // No range has these rows: a band answers where the next one begins.
    let mut row: u32 = 0;
    while row < 32 {
        row = paint_band(scene, row, frame);
    }
}
