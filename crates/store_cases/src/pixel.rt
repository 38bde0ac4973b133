// A kind of cell of one's own: any struct that is copied, with its blank.
ghost use Rattle.store_cases.specs.Blanks.{black};

use store::Cell;

#[derive(Clone, Copy, PartialEq, Debug)]
pub struct Pixel {
    pub red: u8,
    pub green: u8,
    pub blue: u8,
}

impl Cell for Pixel {
    ghost empty = { black };

    fn blank() -> Pixel {
        Pixel {
            red: 0,
            green: 0,
            blue: 0,
        }
    }
}
