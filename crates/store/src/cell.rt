// What is read or written whole.
ghost use Rattle.std.specs.Prelude.{◌≡◌};
ghost use Rattle.store.specs.Bytes.{blank_bytes};

// A kind of cell: any type that is copied, with its blank.
pub trait Cell: Copy {
    // the blank cell, as contracts name it
    ghost empty: { Self };

    // The blank cell.
    fn blank() -> Self
        ensures { result ≡ empty };
}

// A sector of a disk image.
pub type Sector = [u8; 512];

impl Cell for u32 {
    ghost empty = { 0 };

    fn blank() -> u32 {
        0
    }
}

// (Of this length alone: that a sector has 512 bytes is a rule, and no size that a caller chooses.)
impl Cell for [u8; 512] {
    ghost empty = { blank_bytes 512 };

    #[tactic(auto, unfolding(crate::specs::Bytes::blank_bytes))]
    fn blank() -> [u8; 512] {
        [0; 512]
    }
}
