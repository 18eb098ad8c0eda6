// Names and normal forms on examples, with the answers that the Rust gives.
#![tactic(auto)]

#[cfg(test)]
mod tests {
    use input_types::event::KeyEvent;
    use input_types::key_code::KeyCode;
    use input_types::modifiers::{KeyboardLedStatus, Modifiers};
    use key_names::read_key_name;
    use modifier_names::reading::read_modifiers;
    use name_writing::flags::{write_leds, write_modifiers};
    use name_writing::keys::write_key_name;
    use names::composed::composed;
    use names::fault::NameFault;
    use names::phys_names::read_phys_name;
    use normal::Normal;

    // The number and the place of a refusal, if there is one.
    fn refusal<T: Drop>(answer: Result<T, NameFault>) -> Option<(u8, usize)> {
        let fault = answer.err()?;
        Some((fault.number(), fault.place()))
    }

    #[test]
    fn keys_that_read(rt: HostRuntime) {
        assert_eq!(rt; read_key_name(b"F"), Ok(KeyCode::Char('F')));
        assert_eq!(rt; read_key_name(b"Return"), Ok(KeyCode::Char('\r')));
        assert_eq!(rt; read_key_name(b"F24"), Ok(KeyCode::Function(24)));
        assert_eq!(rt; read_key_name(b"F+7"), Ok(KeyCode::Function(7)));
        assert_eq!(rt; read_key_name(b"F007"), Ok(KeyCode::Function(7)));
    }

    #[test]
    fn keys_that_do_not(rt: HostRuntime) {
        assert!(rt; refusal(read_key_name(b"F0")) == Some((4, 1)));
        assert!(rt; refusal(read_key_name(b"F25")) == Some((4, 1)));
        assert!(rt; refusal(read_key_name(b"F++7")) == Some((3, 1)));
        assert!(rt; refusal(read_key_name(b"Numpad256")) == Some((3, 6)));
        assert!(rt; refusal(read_key_name(b"Numpad10")) == Some((4, 6)));
        assert!(rt; refusal(read_key_name(b"KeyPadHome")) == Some((2, 0)));
        assert!(rt; refusal(read_key_name(b"ab\xff")) == Some((1, 2)));
        assert!(rt; refusal(read_key_name(b"\xee\x80\x80")) == Some((5, 0)));
    }

    fn bits(list: &[u8]) -> Option<u16> {
        let modifiers = read_modifiers(list).ok()?;
        Some(modifiers.bits)
    }

    #[test]
    fn lists_of_modifiers(rt: HostRuntime) {
        assert!(rt; bits(b" SHIFT | CTRL ") == Some(10));
        assert!(rt; bits(b"LEADER|\xc2\xa0CMD|") == Some(144));
        assert!(rt; refusal(read_modifiers(b"ALT|\xc2\xa0 shift")) == Some((2, 7)));
    }

    #[test]
    fn places(rt: HostRuntime) {
        assert!(rt; read_phys_name(b"0").is_ok());
        assert!(rt; read_phys_name(b"K0").is_err());
        assert!(rt; read_phys_name(b"F21").is_err());
    }

    fn raw(code: u32) -> KeyCode<'static> {
        KeyCode::RawCode(code)
    }

    #[test]
    fn written_keys(rt: HostRuntime) {
        let mut buffer = [b'.'; 15];
        let count = write_key_name(raw(4294967295), &mut buffer);
        assert!(rt; count == Ok(14));
        assert!(rt; buffer == *b"raw:4294967295.");
    }

    #[test]
    fn written_modifiers(rt: HostRuntime) {
        let mut buffer = [b'.'; 24];
        let count = write_modifiers(Modifiers { bits: 4106 }, &mut buffer);
        assert!(rt; count == Ok(23));
        assert!(rt; buffer == *b"SHIFT|CTRL|ENHANCED_KEY.");
    }

    #[test]
    fn no_room(rt: HostRuntime) {
        let mut buffer = [b'.'; 17];
        let count = write_leds(KeyboardLedStatus { bits: 6 }, &mut buffer);
        assert!(rt; refusal(count) == Some((13, 0)));
        assert!(rt; buffer == [b'.'; 17]);
    }

    #[test]
    fn composed_text(rt: HostRuntime) {
        assert!(rt; matches!(composed(b"a"), Ok(KeyCode::Char('a'))));
        assert!(rt;
            matches!(
                composed(b"0123456789abcdef0123456789abcdef"),
                Ok(KeyCode::Composed(_))
            )
        );
        assert!(rt; refusal(composed(b"0123456789abcdef0123456789abcdef!")) == Some((7, 32)));
    }

    fn press(c: char, modifiers: Modifiers) -> KeyEvent<'static> {
        KeyEvent {
            key: KeyCode::Char(c),
            modifiers,
            leds: KeyboardLedStatus::NONE,
            repeat_count: 1,
            key_is_down: true,
            raw: None,
        }
    }

    #[test]
    fn a_letter_under_shift(rt: HostRuntime) {
        let event = press('a', Modifiers { bits: 10 }).normalize_shift();
        assert!(rt; matches!(event.key, KeyCode::Char('A')));
        assert!(rt; event.modifiers.bits == 8);
    }
}
