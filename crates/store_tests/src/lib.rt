// Stores at their edges, for sectors, numbers and a kind of cell of one's own.
#![tactic(auto)]

#[cfg(test)]
mod tests {
    use store::{Cell, Fault, Fuse, Image, Row, Store, Window};
    use store_cases::{Pixel, Single};
    use transfer::{Side, Stop, copy};

    // Writes v to cell i and reads it back.
    fn put_and_get<S: Store>(s: &mut S, i: usize, v: S::Cell) -> Result<S::Cell, Fault> {
        s.write(i, v)?;
        s.read(i)
    }

    #[test]
    fn faults(rt: HostRuntime) {
        for (fault, number) in [(Fault::OutOfRange, 21), (Fault::NoLife, 22)] {
            assert_eq!(rt; u8::from(fault), number);
        }
    }

    #[test]
    fn rows(rt: HostRuntime) {
        let mut none: [u32; 0] = [];
        let mut row = Row::new(&mut none);
        assert_eq!(rt; row.count(), 0);
        assert_eq!(rt; row.read(0), Err(Fault::OutOfRange));
        assert_eq!(rt; row.write(0, 1), Err(Fault::OutOfRange));
        let mut one = [7];
        let mut row = Row::new(&mut one);
        assert_eq!(rt; row.count(), 1);
        assert_eq!(rt; put_and_get(&mut row, 0, 4_294_967_295), Ok(4_294_967_295));
        assert_eq!(rt; row.read(1), Err(Fault::OutOfRange));
        row.renew(0);
        assert_eq!(rt; row.read(0), Ok(4_294_967_295));
        assert_eq!(rt; u32::blank(), 0);
    }

    #[test]
    fn images(rt: HostRuntime) {
        let mut short = [1u8; 511];
        let mut image = Image::new(&mut short);
        assert_eq!(rt; image.count(), 0);
        assert_eq!(rt; image.write(0, [2; 512]), Err(Fault::OutOfRange));
        let mut bytes = [1u8; 513];
        {
            let mut image = Image::new(&mut bytes);
            assert_eq!(rt; image.count(), 1);
            assert!(rt; image.read(0) == Ok([1; 512]));
            assert_eq!(rt; image.read(1), Err(Fault::OutOfRange));
            assert!(rt; put_and_get(&mut image, 0, [2; 512]) == Ok([2; 512]));
            assert_eq!(rt; image.write(1, [3; 512]), Err(Fault::OutOfRange));
        }
        for (i, byte) in [(0, 2), (511, 2), (512, 1)] {
            assert_eq!(rt; bytes.get(i).copied(), Some(byte));
        }
        let blank: [u8; 512] = Cell::blank();
        assert!(rt; blank == [0; 512]);
    }

    #[test]
    fn windows(rt: HostRuntime) {
        let mut cells = [10, 11, 12, 13, 14];
        let mut row = Row::new(&mut cells);
        let mut fits = Window::new(&mut row, 2, 3);
        assert_eq!(rt; fits.count(), 3);
        assert_eq!(rt; fits.read(2), Ok(14));
        assert_eq!(rt; fits.read(3), Err(Fault::OutOfRange));
        assert_eq!(rt; put_and_get(&mut fits, 0, 99), Ok(99));
        assert_eq!(rt; row.read(2), Ok(99));
        assert_eq!(rt; row.read(3), Ok(13));
        for (first, size) in [
            (3, 3),
            (0, 6),
            (6, 0),
            (1, 4_294_967_295),
            (4_294_967_295, 2),
            (2, usize::MAX),
            (usize::MAX, 2),
        ] {
            let mut past = Window::new(&mut row, first, size);
            assert_eq!(rt; past.count(), 0);
            assert_eq!(rt; past.read(0), Err(Fault::OutOfRange));
            assert_eq!(rt; past.write(0, 1), Err(Fault::OutOfRange));
        }
        let mut at_end = Window::new(&mut row, 5, 0);
        assert_eq!(rt; at_end.count(), 0);
        let mut all = Window::new(Window::new(&mut row, 0, 5), 4, 1);
        assert_eq!(rt; all.read(0), Ok(14));
    }

    #[test]
    fn fuses(rt: HostRuntime) {
        let mut cells = [1, 2, 3];
        let mut row = Row::new(&mut cells);
        let mut blown = Fuse::new(&mut row, 0);
        for (i, fault) in [(0, Fault::NoLife), (3, Fault::OutOfRange)] {
            assert_eq!(rt; blown.read(i), Err(fault));
        }
        assert_eq!(rt; blown.write(0, 9), Err(Fault::NoLife));
        assert_eq!(rt; blown.count(), 3);
        blown.renew(1);
        assert_eq!(rt; blown.read(3), Err(Fault::OutOfRange));
        assert_eq!(rt; blown.read(0), Ok(1));
        assert_eq!(rt; blown.write(0, 9), Err(Fault::NoLife));
        assert_eq!(rt; row.read(0), Ok(1));
        let mut inner_first = Fuse::new(Fuse::new(&mut row, 1), 2);
        assert_eq!(rt; put_and_get(&mut inner_first, 1, 5), Err(Fault::NoLife));
        inner_first.renew(2);
        assert_eq!(rt; put_and_get(&mut inner_first, 1, 6), Ok(6));
        assert_eq!(rt; inner_first.read(1), Err(Fault::NoLife));
        let mut outer_first = Fuse::new(Window::new(Fuse::new(&mut row, 2), 1, 2), 1);
        assert_eq!(rt; outer_first.read(0), Ok(6));
        assert_eq!(rt; outer_first.read(0), Err(Fault::NoLife));
    }

    #[test]
    fn own_cells_and_stores(rt: HostRuntime) {
        let red = Pixel {
            red: 255,
            green: 0,
            blue: 0,
        };
        let mut pixels = [red, Pixel::blank()];
        let mut row = Row::new(&mut pixels);
        let mut last = Fuse::new(Window::new(&mut row, 1, 1), 2);
        assert_eq!(rt; put_and_get(&mut last, 0, red), Ok(red));
        assert_eq!(rt; last.read(0), Err(Fault::NoLife));
        let mut single = Single::new(Pixel::blank());
        assert_eq!(rt;
            copy(&mut row, &mut single, 0),
            Err(stop(1, Side::Target, Fault::OutOfRange))
        );
        assert_eq!(rt; single.read(0), Ok(red));
        assert_eq!(rt; single.read(1), Err(Fault::OutOfRange));
    }

    fn stop(at: usize, side: Side, fault: Fault) -> Stop {
        Stop { at, side, fault }
    }

    #[test]
    fn copies(rt: HostRuntime) {
        let mut source = [1, 2, 3, 4];
        let mut target = [0; 4];
        let mut from = Row::new(&mut source);
        let mut to = Fuse::new(Row::new(&mut target), 2);
        for (start, answer) in [
            (0, Err(stop(2, Side::Target, Fault::NoLife))),
            (4, Ok(())),
            (usize::MAX, Ok(())),
        ] {
            assert_eq!(rt; copy(&mut from, &mut to, start), answer);
        }
        to.renew(3);
        assert_eq!(rt; copy(&mut from, &mut to, 2), Ok(()));
        assert_eq!(rt; to.read(3), Ok(4));
        to.renew(9);
        assert_eq!(rt; to.read(0), Ok(1));
        let mut spent = Fuse::new(&mut from, 1);
        assert_eq!(rt;
            copy(&mut spent, &mut to, 1),
            Err(stop(2, Side::Source, Fault::NoLife))
        );
    }
}
