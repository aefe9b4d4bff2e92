//! Files that are read and files that are refused.
#![tactic(auto)]

#[cfg(test)]
mod tests {
    use fault::TableFault;
    use format::reading::{LONGEST_FILE, read};
    use std::alloc::{AllocError, Global};
    use std::process::Abort;
    use std::test::Fail;
    use table::chart::Chart;
    use table::parts::{Link, State};

    // two states that point at each other
    const PAIR: [u8; 28] = [
        2, 0, 0, 0, 0, 0, 0, 0, 2, 0, 0, 0, 0, 1, 0, 0, 0, 1, 0, 1, 0, 0, 1, 0, 0, 0, 0, 0,
    ];

    // the fields of that file: offset, width, section and item
    const FIELDS: [(usize, usize, u8, u16); 14] = [
        (0, 2, 1, 0),
        (2, 1, 1, 1),
        (3, 2, 1, 1),
        (5, 1, 1, 2),
        (6, 2, 1, 2),
        (8, 2, 2, 0),
        (10, 2, 2, 1),
        (12, 1, 2, 1),
        (13, 4, 2, 1),
        (17, 2, 2, 1),
        (19, 2, 2, 2),
        (21, 1, 2, 2),
        (22, 4, 2, 2),
        (26, 2, 2, 2),
    ];

    // A link, field by field.
    fn link(source: u16, label: u8, weight: i32, target: u16) -> Link {
        Link {
            source,
            label,
            weight,
            target,
        }
    }

    // The fault of a file, or none.
    fn fault(heap: Global, bytes: &[u8]) -> Result<Option<TableFault>, AllocError> {
        let mut chart = Chart::reserve(heap)?;
        match read(bytes, &mut chart) {
            Ok(()) => Ok(None),
            Err(fault) => Ok(Some(fault)),
        }
    }

    // That a file is refused with this line.
    fn refused(rt: &impl Abort, heap: Global, bytes: &[u8], line: &str) -> Result<(), Fail> {
        match fault(heap, bytes)? {
            Some(fault) => {
                let text = fault.to_string(heap)?;
                assert!(rt; text.as_str() == line, "{}", line);
                Ok(())
            }
            None => Err(Fail::new("it is accepted")),
        }
    }

    // A file of so many states and links, all of them zero.
    fn zeros(heap: Global, states: u16, links: u16) -> Result<Vec<u8>, AllocError> {
        let mut bytes = Vec::new(heap);
        bytes.extend_from_slice(&states.to_le_bytes())?;
        for _ in 0..states {
            bytes.extend_from_slice(&[0, 0, 0])?;
        }
        bytes.extend_from_slice(&links.to_le_bytes())?;
        for _ in 0..links {
            bytes.extend_from_slice(&[0, 0, 0, 0, 0, 0, 0, 0, 0])?;
        }
        Ok(bytes)
    }

    // The file of two states and two links with another byte at a place.
    fn pair_with(heap: Global, at: usize, byte: u8) -> Result<Vec<u8>, AllocError> {
        let mut bytes = Vec::from_slice(heap, &PAIR)?;
        if let Some(place) = bytes.get_mut(at) {
            *place = byte;
        }
        Ok(bytes)
    }

    // That the same file is refused with this line.
    fn refused_with(
        rt: &impl Abort,
        heap: Global,
        at: usize,
        byte: u8,
        line: &str,
    ) -> Result<(), Fail> {
        let file = pair_with(heap, at, byte)?;
        refused(rt, heap, file.as_slice(), line)
    }

    #[test]
    fn reads_states_and_links(rt: HostRuntime) -> Result<(), Fail> {
        let mut chart = Chart::reserve(rt.alloc())?;
        assert!(rt; read(&PAIR, &mut chart).is_ok());
        let plain = State { sort: 0, output: 0 };
        assert!(rt; chart.states().len() == 2 && chart.links().len() == 2);
        assert_eq!(rt; chart.states()[0], plain);
        assert_eq!(rt; chart.states()[1], plain);
        assert_eq!(rt; chart.links()[0], link(0, 0, 1, 1));
        assert_eq!(rt; chart.links()[1], link(1, 0, 1, 0));
        Ok(())
    }

    #[test]
    fn reads_every_field(rt: HostRuntime) -> Result<(), Fail> {
        let bytes = [
            1, 0, 3, 0xfe, 0xff, 1, 0, 0, 0, 63, 0xfe, 0xff, 0xff, 0xff, 0, 0,
        ];
        let mut chart = Chart::reserve(rt.alloc())?;
        assert!(rt; read(&bytes, &mut chart).is_ok());
        assert!(rt; chart.states().len() == 1 && chart.links().len() == 1);
        let state = State {
            sort: 3,
            output: 65534,
        };
        assert_eq!(rt; chart.states()[0], state);
        assert_eq!(rt; chart.links()[0], link(0, 63, -2, 0));
        Ok(())
    }

    #[test]
    fn a_refused_file_leaves_nothing(rt: HostRuntime) -> Result<(), Fail> {
        let mut chart = Chart::reserve(rt.alloc())?;
        assert!(rt; read(&PAIR, &mut chart).is_ok());
        assert!(rt; read(&[1, 0, 0, 0, 0, 9], &mut chart).is_err());
        assert!(rt; chart.states().is_empty() && chart.links().is_empty());
        Ok(())
    }

    #[test]
    fn refuses_short_and_long_files(rt: HostRuntime) -> Result<(), Fail> {
        let heap = rt.alloc();
        refused(&rt, heap, &[], "refused 7 byte 0 section 1 item 0")?;
        refused(&rt, heap, &[0, 0], "refused 7 byte 2 section 2 item 0")?;
        refused(&rt, heap, &[0, 0, 0], "refused 7 byte 2 section 2 item 0")?;
        let line = "refused 8 byte 4 section 3 item 0";
        refused(&rt, heap, &[0, 0, 0, 0, 0], line)?;
        let line = "refused 4 byte 2 section 1 item 1";
        refused(&rt, heap, &[1, 0, 4, 0, 0, 0, 0], line)?;
        refused(&rt, heap, &[1, 0, 4], line)?;
        refused(&rt, heap, &[1, 0, 3], "refused 7 byte 3 section 1 item 1")
    }

    #[test]
    fn refuses_every_prefix(rt: HostRuntime) -> Result<(), Fail> {
        for len in 0..28usize {
            let Some(found) = fault(rt.alloc(), &PAIR[0..len])? else {
                return Err(Fail::new("a prefix is accepted"));
            };
            for (offset, width, section, item) in FIELDS {
                if len >= offset && len - offset < width {
                    assert!(rt; found.refusal().number() == 7);
                    assert!(rt; found.place().offset == offset);
                    assert!(rt; found.section() as u8 == section);
                    assert!(rt; found.place().item == item);
                }
            }
        }
        Ok(())
    }

    #[test]
    fn refuses_one_past_each_limit(rt: HostRuntime) -> Result<(), Fail> {
        let heap = rt.alloc();
        refused_with(&rt, heap, 5, 4, "refused 4 byte 5 section 1 item 2")?;
        refused_with(&rt, heap, 10, 2, "refused 5 byte 10 section 2 item 1")?;
        refused_with(&rt, heap, 21, 64, "refused 6 byte 21 section 2 item 2")?;
        refused_with(&rt, heap, 26, 2, "refused 5 byte 26 section 2 item 2")?;
        let file = zeros(heap, 1025, 0)?;
        let line = "refused 3 byte 0 section 1 item 0";
        refused(&rt, heap, file.as_slice(), line)?;
        let file = zeros(heap, 1, 4097)?;
        let line = "refused 3 byte 5 section 2 item 0";
        refused(&rt, heap, file.as_slice(), line)
    }

    #[test]
    fn accepts_each_limit(rt: HostRuntime) -> Result<(), Fail> {
        let heap = rt.alloc();
        let file = pair_with(heap, 5, 3)?;
        assert!(rt; fault(heap, file.as_slice())?.is_none());
        let file = pair_with(heap, 10, 1)?;
        assert!(rt; fault(heap, file.as_slice())?.is_none());
        let file = pair_with(heap, 21, 63)?;
        assert!(rt; fault(heap, file.as_slice())?.is_none());
        let file = zeros(heap, 1024, 4096)?;
        assert!(rt; file.len() == LONGEST_FILE);
        assert!(rt; fault(heap, file.as_slice())?.is_none());
        Ok(())
    }
}
