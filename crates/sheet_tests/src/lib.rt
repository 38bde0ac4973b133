// Sheets and output lines by example.
#![tactic(auto)]

#[cfg(test)]
mod tests {
    use rules::step::Step;
    use sheet::{Field, NoRoom, OutputLine, Reader, Refusal, put_number};
    use std::test::Fail;

    // Line, number and column of a refusal.
    fn refused(refusal: Refusal) -> (usize, u32, u32) {
        let Refusal { cause, place } = refusal;
        (place.line, u32::from(cause), place.column)
    }

    // How many lines of a sheet are read, of at most eight; or the refusal of the first that is not.
    fn outcome(sheet: &[u8]) -> Result<usize, (usize, u32, u32)> {
        let mut reader = Reader::new(sheet);
        for n in 0..8 {
            if reader.next_line().map_err(refused)?.is_none() {
                return Ok(n);
            }
        }
        Ok(8)
    }

    #[test]
    fn outcomes(rt: HostRuntime) {
        let table: [(&[u8], Result<usize, (usize, u32, u32)>); 25] = [
            (b"", Ok(0)),
            // the line's end
            (b"\n", Err((1, 31, 1))),
            (b" 1 1    0          0          0", Err((1, 31, 1))),
            (b" 1 1    0          0         0\n", Err((1, 31, 1))),
            (b" 1 1    0          0          0 \n", Err((1, 31, 1))),
            (b"x1 1    0          0         0\n\n", Err((1, 31, 1))),
            (b" 1 1    0          0          0\n\n", Err((2, 31, 1))),
            // each field
            (b"1  1    0          0          0\n", Err((1, 32, 1))),
            (b" 11     0          0          0\n", Err((1, 32, 3))),
            (b" 1 11 1 1          0          0\n", Err((1, 32, 5))),
            (b" 1 1    0         0           0\n", Err((1, 32, 10))),
            (b" 1 1    0          0         0 \n", Err((1, 32, 21))),
            // other bytes
            (b"\t1 1    0          0          0\n", Err((1, 32, 1))),
            (b" 1-1    0          0          0\n", Err((1, 32, 3))),
            (b" 1 1   +0          0          0\n", Err((1, 32, 5))),
            (b" 1 1    0          \xff          0\n", Err((1, 32, 10))),
            (b" 1 1    0          0         :0\n", Err((1, 32, 21))),
            (b" 1 1    0          0         0/\n", Err((1, 32, 21))),
            // the largest number
            (b" 1 1    0 4294967295 4294967295\n", Ok(1)),
            (b" 1 1    0 4294967296          0\n", Err((1, 34, 10))),
            (b" 1 1    0          0 4294967296\n", Err((1, 34, 21))),
            (b" 1 1    099999999999          0\n", Err((1, 34, 10))),
            // which comes first
            (b" 1 1    04294967296x          0\n", Err((1, 32, 10))),
            (b" 1 1    0 4294967296          x\n", Err((1, 34, 10))),
            (b"x1 1    0 4294967296          0\n", Err((1, 32, 1))),
        ];
        for (sheet, expected) in table {
            assert_eq!(rt; outcome(sheet), expected);
        }
    }

    // The numbers of a sheet's first line.
    fn numbers(sheet: &[u8]) -> Option<[u32; 5]> {
        let s = Step::from(Reader::new(sheet).next_line().ok()??);
        Some([s.call, s.client, s.cell, s.first, s.second])
    }

    #[test]
    fn numbers_of_lines(rt: HostRuntime) {
        let table: [(&[u8], [u32; 5]); 5] = [
            (b"                               \n", [0, 0, 0, 0, 0]),
            (
                b"1234567890123456789000987654321\n",
                [12, 34, 56789, 1234567890, 987654321],
            ),
            (b" 1 2    3          4          5\n", [1, 2, 3, 4, 5]),
            (b"0102000030000000000400000000005\n", [1, 2, 3, 4, 5]),
            (
                b"99     00 4294967295           \n",
                [99, 0, 0, 4294967295, 0],
            ),
        ];
        for (sheet, expected) in table {
            assert_eq!(rt; numbers(sheet), Some(expected));
        }
    }

    // Line, column and number of digits of a field, which has none where it is blank.
    fn standing(field: Field<'_>) -> (usize, u32, Option<usize>) {
        match field {
            Field::Blank(place) => (place.line, place.column, None),
            Field::Digits(place, digits) => (place.line, place.column, Some(digits.len())),
        }
    }

    #[test]
    fn places(rt: HostRuntime) -> Result<(), Fail> {
        let sheet = b" 1 2    3          4          5\n   700056            0004294967\n";
        let mut reader = Reader::new(sheet);
        let first = reader.next_line()?.ok_or("no first line")?;
        assert_eq!(rt; standing(first.call), (1, 2, Some(1)));
        assert_eq!(rt; standing(first.client), (1, 4, Some(1)));
        assert_eq!(rt; standing(first.cell), (1, 9, Some(1)));
        assert_eq!(rt; standing(first.first), (1, 20, Some(1)));
        assert_eq!(rt; standing(first.second), (1, 31, Some(1)));
        let second = reader.next_line()?.ok_or("no second line")?;
        assert_eq!(rt; standing(second.call), (2, 1, None));
        assert_eq!(rt; standing(second.client), (2, 4, Some(1)));
        assert_eq!(rt; standing(second.cell), (2, 5, Some(5)));
        assert_eq!(rt; standing(second.first), (2, 10, None));
        assert_eq!(rt; standing(second.second), (2, 22, Some(10)));
        assert!(rt; reader.next_line()?.is_none());
        assert!(rt; reader.next_line()?.is_none());
        Ok(())
    }

    #[test]
    fn a_refused_line_is_refused_again(rt: HostRuntime) -> Result<(), Fail> {
        let table: [(&[u8], u32, u32); 4] = [
            (b" 1 1    0          0          0\n 2\n", 31, 1),
            (
                b" 1 1    0          0          0\nx2 2    0          0          0\n",
                32,
                1,
            ),
            (
                b" 1 1    0          0          0\n 2 2    x          0          0\n",
                32,
                5,
            ),
            (
                b" 1 1    0          0          0\n 2 2    0          0 4294967296\n",
                34,
                21,
            ),
        ];
        for (sheet, number, column) in table {
            let mut reader = Reader::new(sheet);
            assert!(rt; reader.next_line()?.is_some());
            for _ in 0..2 {
                let refusal = reader.next_line().err().map(refused);
                assert_eq!(rt; refusal, Some((2, number, column)));
            }
        }
        Ok(())
    }

    // Twelve columns, the first of which a number is put into; or they as they are left where it is not.
    fn in_columns(n: u32, width: usize) -> Result<[u8; 12], [u8; 12]> {
        let mut bytes = [b'.'; 12];
        let columns = bytes.get_mut(..width).ok_or(NoRoom);
        match columns.and_then(|columns| put_number(columns, n)) {
            Ok(()) => Ok(bytes),
            Err(_) => Err(bytes),
        }
    }

    #[test]
    fn numbers_in_columns(rt: HostRuntime) {
        let table: [(u32, usize, Result<[u8; 12], [u8; 12]>); 10] = [
            (0, 0, Err(*b"............")),
            (0, 1, Ok(*b"0...........")),
            (0, 3, Ok(*b"  0.........")),
            (7, 2, Ok(*b" 7..........")),
            (42, 2, Ok(*b"42..........")),
            (100, 2, Err(*b"............")),
            (100, 4, Ok(*b" 100........")),
            (4294967295, 9, Err(*b"............")),
            (4294967295, 10, Ok(*b"4294967295..")),
            (4294967295, 12, Ok(*b"  4294967295")),
        ];
        for (n, width, expected) in table {
            assert_eq!(rt; in_columns(n, width), expected);
        }
    }

    // 28 bytes, the first of which a line is put into; or they as they are left where it is not.
    fn printed(line: OutputLine, room: usize) -> Result<[u8; 28], [u8; 28]> {
        let mut bytes = [b'.'; 28];
        let part = bytes.get_mut(..room).ok_or(NoRoom);
        match part.and_then(|part| line.put(part)) {
            Ok(()) => Ok(bytes),
            Err(_) => Err(bytes),
        }
    }

    #[test]
    fn output_lines(rt: HostRuntime) {
        let zero = OutputLine {
            step: 0,
            answer: 0,
            place: 0,
            value: 0,
            source: 0,
        };
        let wide = OutputLine {
            step: 9999,
            answer: 999,
            place: 99999,
            value: 4294967295,
            source: 99,
        };
        let table: [(OutputLine, usize, Result<[u8; 28], [u8; 28]>); 8] = [
            (zero, 28, Ok(*b"   0  0    0          0 0\n..")),
            (zero, 26, Ok(*b"   0  0    0          0 0\n..")),
            (zero, 25, Err(*b"............................")),
            (zero, 0, Err(*b"............................")),
            (wide, 28, Ok(*b"999999999999 429496729599\n..")),
            (
                OutputLine {
                    step: 10000,
                    ..wide
                },
                28,
                Err(*b"............................"),
            ),
            (
                OutputLine {
                    answer: 1000,
                    ..wide
                },
                28,
                Err(*b"............................"),
            ),
            (
                OutputLine {
                    source: 100,
                    ..wide
                },
                28,
                Err(*b"............................"),
            ),
        ];
        for (line, room, expected) in table {
            assert_eq!(rt; printed(line, room), expected);
        }
    }

    #[test]
    fn refused_lines_in_output(rt: HostRuntime) -> Result<(), Fail> {
        let mut reader = Reader::new(
            b"    10000                      \n 1 1    x          0          0\n",
        );
        assert!(rt; reader.next_line()?.is_some());
        let refusal = reader.next_line().err().ok_or("the line is read")?;
        assert_eq!(rt;
            printed(OutputLine::from(refusal), 26),
            Ok(*b"   2 32    5          0 0\n..")
        );
        Ok(())
    }
}
