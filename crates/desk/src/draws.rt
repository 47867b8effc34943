// The draws that a call brings.
ghost use Rattle.std.specs.Prelude.{◌≤◌};

use end::Draw;
use trace::Cursor;

// The first of these are brought.
// Kept: a length beside the draws, in fixed memory (no heap): a program that asked for memory might not get it, and print something else.
#[derive(Drop)]
pub struct Draws {
    all: [Draw; 66],
    count: usize,
    ghost inside: { count ≤ 66 },
}

impl Draws {
    // 64 draws of 0.
    pub fn new() -> Self {
        Draws {
            all: [0; 66],
            count: 64,
        }
    }

    pub fn as_slice(&self) -> &[Draw] {
        &self.all[..self.count]
    }

    // `draws COUNT FIRST STEP`.
    pub fn set_steps(&mut self, line: &mut Cursor<'_>) -> Option<()> {
        self.count = line.place(66)?;
        let mut v = line.short()?;
        let step = line.short()?;
        for draw in self.all.iter_mut() {
            *draw = v;
            v = v.wrapping_add(step);
        }
        Some(())
    }

    // `draw PLACE VALUE`.
    pub fn set_one(&mut self, line: &mut Cursor<'_>) -> Option<()> {
        let place = line.place(65)?;
        self.all[place] = line.short()?;
        Some(())
    }

    // `each VALUE VALUE ..`, at least one.
    pub fn set_each(&mut self, line: &mut Cursor<'_>) -> Option<()> {
        for (i, draw) in self.all.iter_mut().enumerate() {
            *draw = line.short()?;
            if line.is_whole() {
                self.count = i + 1;
                return Some(());
            }
        }
        None
    }
}
