// Runs the writers and the readers of both dialects on examples.
#![tactic(auto)]

#[cfg(test)]
mod tests {
    use dialect::dialect::Dialect;
    use dialect::kitty::Kitty;
    use frames::frames::Frames;
    use reading::reader::Reader;
    use report::making::plain_text;

    // The length that was read, or the number of the refusal.
    fn read<R: Reader>(reader: &R, given: &[u8], text: &mut [u32]) -> Result<usize, u8> {
        match reader.read(given, text) {
            Ok(seen) => Ok(seen.length),
            Err(fault) => Err(fault.number()),
        }
    }

    fn kitty(given: &[u8], text: &mut [u32]) -> Result<usize, u8> {
        read(&Kitty, given, text)
    }

    fn framed(given: &[u8]) -> Result<usize, u8> {
        read(&Frames, given, &mut [0u32; 32])
    }

    #[test]
    fn reads_sequences(rt: HostRuntime) {
        let mut text = [7u32; 2];
        assert_eq!(rt; kitty(b"\x1b[57404;129;53uX", &mut text), Ok(15));
        assert_eq!(rt; text[0], 53);
        assert_eq!(rt; text[1], 7);
        assert_eq!(rt; kitty(b"\x1b[97::99;6:3u", &mut text), Ok(13));
        assert_eq!(rt; kitty(b"\x1b[1;65E", &mut text), Ok(7));
        assert_eq!(rt; kitty(b"\x1b[E", &mut text), Ok(3));
        assert_eq!(rt; kitty(b"\x1b[15;1~", &mut text), Ok(7));
        assert_eq!(rt; kitty(b"\x1b[?31u", &mut text), Ok(6));
        assert_eq!(rt; kitty(b"\xe2\x82\xacu", &mut text), Ok(3));
    }

    #[test]
    fn reads_parts_of_sequences(rt: HostRuntime) {
        let mut text = [7u32; 2];
        assert_eq!(rt; kitty(b"", &mut text), Err(11));
        assert_eq!(rt; kitty(b"\x1b", &mut text), Err(11));
        assert_eq!(rt; kitty(b"\x1b[97;1;55296", &mut text), Err(11));
        assert_eq!(rt; kitty(b"\x1b[1;256:", &mut text), Err(11));
        assert_eq!(rt; kitty(b"\xe2\x82", &mut text), Err(11));
        assert_eq!(rt; kitty(b"\x1b[97;1;1:2:3u", &mut text), Err(13));
        assert_eq!(rt; text[0], 7);
    }

    #[test]
    fn refuses_numbers(rt: HostRuntime) {
        let mut text = [7u32; 2];
        assert_eq!(rt; kitty(b"\x1b[01;", &mut text), Err(12));
        assert_eq!(rt; kitty(b"\x1b[1114112", &mut text), Err(12));
        assert_eq!(rt; kitty(b"\x1b[97;0", &mut text), Err(12));
        assert_eq!(rt; kitty(b"\x1b[97;257", &mut text), Err(12));
        assert_eq!(rt; kitty(b"\x1b[97;1;55296u", &mut text), Err(12));
        assert_eq!(rt; kitty(b"\x1b[?32", &mut text), Err(12));
        assert_eq!(rt; kitty(b"\x1b[97;1:2", &mut text), Err(12));
    }

    #[test]
    fn refuses_ends(rt: HostRuntime) {
        let mut text = [7u32; 2];
        assert_eq!(rt; kitty(b"\x1b[1;1E", &mut text), Err(12));
        assert_eq!(rt; kitty(b"\x1b[2;2A", &mut text), Err(12));
        assert_eq!(rt; kitty(b"\x1b[97;1;98~", &mut text), Err(12));
        assert_eq!(rt; kitty(b"\x1b[97:98;1~", &mut text), Err(12));
        assert_eq!(rt; kitty(b"\x1b[97;1G", &mut text), Err(12));
        assert_eq!(rt; kitty(b"\x1ba", &mut text), Err(12));
    }

    #[test]
    fn refuses_characters(rt: HostRuntime) {
        let mut text = [7u32; 2];
        assert_eq!(rt; kitty(b"\xc0\x80", &mut text), Err(12));
        assert_eq!(rt; kitty(b"\xe0\x9f", &mut text), Err(12));
        assert_eq!(rt; kitty(b"\xed\xa0", &mut text), Err(12));
        assert_eq!(rt; kitty(b"\xe2x", &mut text), Err(12));
        assert_eq!(rt; kitty(b"\x80", &mut text), Err(12));
    }

    // Thirty-two characters pass, and after them no colon.
    #[test]
    fn counts_characters(rt: HostRuntime) {
        let mut text = [7u32; 33];
        let many = b"\x1b[1;1;1:1:1:1:1:1:1:1:1:1:1:1:1:1:1:1:1:1:1:1:1:1:1:1:1:1:1:1:1:1:1:1u";
        assert_eq!(rt; kitty(many, &mut text), Ok(70));
        assert_eq!(rt; text[31], 1);
        assert_eq!(rt; text[32], 7);
        let more = b"\x1b[1;1;1:1:1:1:1:1:1:1:1:1:1:1:1:1:1:1:1:1:1:1:1:1:1:1:1:1:1:1:1:1:1:1:";
        assert_eq!(rt; kitty(more, &mut text), Err(12));
    }

    #[test]
    fn reads_frames(rt: HostRuntime) {
        let mut out = [9u8; 512];
        assert_eq!(rt; Frames.write(&plain_text('a').told(), &mut out), 8);
        assert!(rt; &out[0..8] == b"\x06\0\x01\0\x61\0\0\0".as_slice());
        assert_eq!(rt; out[8], 9);
        assert_eq!(rt; framed(&out), Ok(8));
        assert_eq!(rt; framed(b"\x03\0\x03\0\x1f"), Ok(5));
        assert_eq!(rt;
            framed(b"\x16\0\x02\0\x01\0\0\0\xff\xff\xff\xff\xff\xff\xff\xff\0\x03u\x01\x61\0\0\0"),
            Ok(24)
        );
        assert_eq!(rt;
            framed(b"\x12\0\x02\0\x01\0\0\0\xff\xff\xff\xff\xff\xff\xff\xff\0\x01E\0"),
            Ok(20)
        );
    }

    #[test]
    fn reads_parts_of_frames(rt: HostRuntime) {
        assert_eq!(rt; framed(b""), Err(11));
        assert_eq!(rt; framed(b"\x06\0\x01\0\x61\0\0"), Err(11));
        assert_eq!(rt; framed(b"\x12\0\x02\0\x01\0\0\0\xff\xff\xff"), Err(11));
        assert_eq!(rt;
            framed(b"\x12\0\x02\0\x01\0\0\0\xff\xff\xff\xff\xff\xff\xff\xff\0\x01E"),
            Err(11)
        );
    }

    // A count that differs from what the length tells, an old report, ESC, and bytes out of range.
    #[test]
    fn refuses_frames(rt: HostRuntime) {
        assert_eq!(rt;
            framed(b"\x16\0\x02\0\x01\0\0\0\xff\xff\xff\xff\xff\xff\xff\xff\0\x03u\x02"),
            Err(12)
        );
        assert_eq!(rt; framed(b"\x06\0\x04\0"), Err(12));
        assert_eq!(rt; framed(b"\x06\0\x01\0\x1b\0\0\0"), Err(12));
        assert_eq!(rt; framed(b"\x06\0\x01\0\0\xd8\0\0"), Err(12));
        assert_eq!(rt; framed(b"\x03\0\x03\0\x20"), Err(12));
        assert_eq!(rt; framed(b"\x12\0\x02\0\x01\0\x11"), Err(12));
        assert_eq!(rt;
            framed(b"\x16\0\x02\0\x01\0\0\0\xff\xff\xff\xff\xff\xff\xff\xff\0\x01A"),
            Err(12)
        );
        assert_eq!(rt;
            framed(b"\x12\0\x02\0\x01\0\0\0\xff\xff\xff\xff\xff\xff\xff\xff\0\x02"),
            Err(12)
        );
    }

    #[test]
    fn writes_characters(rt: HostRuntime) {
        let mut out = [9u8; 512];
        assert_eq!(rt; Kitty.write(&plain_text('é').told(), &mut out), 2);
        assert!(rt; &out[0..2] == b"\xc3\xa9".as_slice());
        assert_eq!(rt; out[2], 9);
    }
}
