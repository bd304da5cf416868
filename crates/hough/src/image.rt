// The image of a pass: which flag each pixel shows.
ghost use Rattle.std.specs.Prelude.{◌≡◌, ◌≤◌, ◌<◌, min, length};
ghost use Rattle.columns.specs.Columns.{list_to, column_part};
ghost use Rattle.hough.specs.Pass.{flag_of};
ghost use Rattle.hough.specs.Steps.{seconds_by, RowDrawn, Drawn};

// The seconds from the first line's start to a pixel, for its column's part of a line.
#[tactic(auto, unfolding(crate::specs::Steps::seconds_by))]
fn seconds(line: f64, part: f64, y: usize) -> f64
    requires { y ≤ 65536 }
    ensures { result ≡ seconds_by line part y }
{
    ((y as f64) + part) * line
}

// What a pass draws: the flags at a rate, in lines of `line` seconds and w columns.
#[derive(Clone, Copy)]
pub struct Drawing<'a> {
    pub flags: &'a [u8],
    pub rate: f64,
    pub line: f64,
    pub w: usize,
}

impl Drawing<'_> {
    fn draw_row(self, img: &mut [u8], parts: &[f64; 700], y: usize)
        requires { (441000 ≤ length img.old) × (parts.now ≡ list_to (column_part self.w) 700) × (y < 630) }
        ensures { RowDrawn (λ x. flag_of self.entry.flags.now self.entry.rate self.entry.line self.entry.w x y) y (min self.entry.w 700) img.old img.new }
    {
        // by number: x says which part of a line and which pixel
        for x in 0..self.w.min(700) {
            let time = seconds(self.line, parts[x], y);
            img[y * 700 + x] = columns::flag(self.flags, columns::probe_at(time, self.rate));
        }
    }

    // Draws n rows, row by row: the pixel (x, y) stands at y * 700 + x. The rows lie in one list, as the C interface lends it.
    pub fn draw(self, img: &mut [u8], n: usize)
        requires { (441000 ≤ length img.old) × (self.w ≤ 65536) × (n ≤ 630) }
        ensures { Drawn (λ x y. flag_of self.entry.flags.now self.entry.rate self.entry.line self.entry.w x y) (min self.entry.w 700) n img.old img.new }
    {
        let parts = columns::column_parts(self.w);
        for y in 0..n {
            self.draw_row(img, &parts, y);
        }
    }
}
