// Seats at run time, over this wire and this layout, a ring and a page. What is wanted follows by hand from the rules.
use crate::french::French;
use crate::opening::{open_french, replay_french};
use crate::tray::Tray;
use dialect::kitty::Kitty;
use input_types::event::{KeyEvent, RawKeyEvent};
use input_types::key_code::KeyCode;
use input_types::modifiers::{KeyboardLedStatus, Modifiers};
use input_types::phys_key_code::PhysKeyCode;
use layout::Layout;
use script::Call;
use seat::refusal::Refusal;
use seat::seat::Seat;
use wire::Wire;
use wire::page::Page;
use wire::ring::Ring;

fn press(key: KeyCode<'static>, modifiers: Modifiers) -> KeyEvent<'static> {
    KeyEvent {
        key,
        modifiers,
        leds: KeyboardLedStatus::NONE,
        repeat_count: 1,
        key_is_down: true,
        raw: None,
    }
}

fn letter(c: char) -> KeyEvent<'static> {
    press(KeyCode::Char(c), Modifiers::NONE)
}

fn shifted(c: char) -> KeyEvent<'static> {
    press(KeyCode::Char(c), Modifiers::SHIFT)
}

// Each call in a function of its own, with no contract: a test would carry along what all its calls promise.
fn opened() -> Seat<Tray, French, Kitty> {
    open_french()
}

fn key<W: Wire, L: Layout>(
    seat: &mut Seat<W, L, Kitty>,
    event: &KeyEvent<'static>,
) -> Result<usize, Refusal> {
    seat.key(event)
}

fn push<W: Wire, L: Layout>(seat: &mut Seat<W, L, Kitty>, flags: u32) -> Result<(), Refusal> {
    seat.push(flags)
}

fn pop<W: Wire, L: Layout>(seat: &mut Seat<W, L, Kitty>, n: usize) -> Result<(), Refusal> {
    seat.pop(n)
}

fn query<W: Wire, L: Layout>(seat: &mut Seat<W, L, Kitty>) -> Result<usize, Refusal> {
    seat.query()
}

fn drain<W: Wire, L: Layout>(seat: &mut Seat<W, L, Kitty>, out: &mut [u8]) -> usize {
    seat.drain(out)
}

// How many calls were made, and how many bytes they drained.
fn replayed(
    calls: &[Call],
    answers: &mut [Result<usize, Refusal>],
    out: &mut [u8],
) -> (usize, usize) {
    let finished = replay_french(calls, answers, out);
    (finished.made, finished.drained)
}

// The number and the place of a refusal, if there is one.
fn refusal<T: Drop>(answer: Result<T, Refusal>) -> Option<(u8, usize)> {
    let refused = answer.err()?;
    Some((refused.number(), refused.place()))
}

const FULL: Option<(u8, usize)> = Some((8, 0));

// The bytes that a key puts on an empty wire, before zeros.
fn sent<W: Wire, L: Layout>(seat: &mut Seat<W, L, Kitty>, event: &KeyEvent<'static>) -> [u8; 16] {
    let mut out = [0; 16];
    let _counted = key(seat, event);
    let _moved = drain(seat, &mut out);
    out
}

// Under flags 8 the letter a is ESC [ 97 ; 1 u, seven bytes, and under flags 0 one byte. Eight letters and one fill a
// tray up to seven bytes, into which one more letter fits.
#[test]
fn exact_fit_of_a_tray(rt: HostRuntime) {
    let mut seat = opened();
    let mut out = [9; 66];
    assert_eq!(rt; push(&mut seat, 8), Ok(()));
    for _ in 0..8 {
        assert_eq!(rt; key(&mut seat, &letter('a')), Ok(7));
    }
    assert_eq!(rt; push(&mut seat, 0), Ok(()));
    assert_eq!(rt; key(&mut seat, &letter('b')), Ok(1));
    assert_eq!(rt; pop(&mut seat, 1), Ok(()));
    assert_eq!(rt; key(&mut seat, &letter('a')), Ok(7));
    assert!(rt; refusal(key(&mut seat, &letter('a'))) == FULL);
    assert!(rt; refusal(query(&mut seat)) == FULL);
    assert_eq!(rt; drain(&mut seat, &mut out), 64);
    for i in 0..8 {
        assert!(rt; &out[7 * i..7 * i + 7] == b"\x1b[97;1u".as_slice());
    }
    assert!(rt; &out[56..] == b"b\x1b[97;1u\x09\x09".as_slice());
}

// One byte less is free: the letter is refused whole, and what waits stays.
#[test]
fn a_byte_more_than_is_free(rt: HostRuntime) {
    let mut seat = opened();
    let mut out = [9; 60];
    assert_eq!(rt; push(&mut seat, 8), Ok(()));
    for _ in 0..8 {
        assert_eq!(rt; key(&mut seat, &letter('a')), Ok(7));
    }
    assert_eq!(rt; push(&mut seat, 0), Ok(()));
    assert_eq!(rt; key(&mut seat, &letter('b')), Ok(1));
    assert_eq!(rt; key(&mut seat, &letter('c')), Ok(1));
    assert_eq!(rt; pop(&mut seat, 1), Ok(()));
    assert!(rt; refusal(key(&mut seat, &letter('a'))) == FULL);
    assert_eq!(rt; drain(&mut seat, &mut out), 58);
    for i in 0..8 {
        assert!(rt; &out[7 * i..7 * i + 7] == b"\x1b[97;1u".as_slice());
    }
    assert!(rt; &out[56..] == b"bc\x09\x09".as_slice());
    assert_eq!(rt; key(&mut seat, &letter('a')), Ok(7));
}

// 4096 is 584 times seven, and eight.
#[test]
fn exact_fit_of_a_ring(rt: HostRuntime) {
    let mut seat = Seat::open(Ring::new(), French, Kitty);
    let mut out = [9; 4097];
    assert_eq!(rt; push(&mut seat, 8), Ok(()));
    for _ in 0..584 {
        assert_eq!(rt; key(&mut seat, &letter('a')), Ok(7));
    }
    assert_eq!(rt; push(&mut seat, 0), Ok(()));
    assert_eq!(rt; key(&mut seat, &letter('b')), Ok(1));
    assert_eq!(rt; pop(&mut seat, 1), Ok(()));
    assert_eq!(rt; key(&mut seat, &letter('a')), Ok(7));
    assert!(rt; refusal(key(&mut seat, &letter('a'))) == FULL);
    assert_eq!(rt; drain(&mut seat, &mut out), 4096);
    for i in 0..584 {
        assert!(rt; &out[7 * i..7 * i + 7] == b"\x1b[97;1u".as_slice());
    }
    assert!(rt; &out[4088..] == b"b\x1b[97;1u\x09".as_slice());
}

// A page holds the caller's whole buffer, and a take moves what is left to its front.
#[test]
fn exact_fit_of_a_page(rt: HostRuntime) {
    let mut lent = [0; 15];
    let mut seat = Seat::open(Page::new(&mut lent), French, Kitty);
    let mut out = [9; 8];
    assert_eq!(rt; key(&mut seat, &letter('b')), Ok(1));
    assert_eq!(rt; push(&mut seat, 8), Ok(()));
    assert_eq!(rt; key(&mut seat, &letter('a')), Ok(7));
    assert_eq!(rt; key(&mut seat, &letter('c')), Ok(7));
    assert!(rt; refusal(query(&mut seat)) == FULL);
    assert_eq!(rt; drain(&mut seat, &mut out), 8);
    assert!(rt; out == *b"b\x1b[97;1u");
    assert_eq!(rt; key(&mut seat, &letter('d')), Ok(8));
    assert!(rt; refusal(query(&mut seat)) == FULL);
    assert_eq!(rt; drain(&mut seat, &mut out), 8);
    assert!(rt; out == *b"\x1b[99;1u\x1b");
}

// Shift and the key of & and 1: the number is the base, 38, then the code that Shift gives, 49, and then the place of
// the key on a US keyboard, where a raw event tells it.
#[test]
fn digits_come_with_shift(rt: HostRuntime) {
    let mut seat = opened();
    assert_eq!(rt; push(&mut seat, 5), Ok(()));
    assert!(rt; sent(&mut seat, &shifted('1')) == *b"\x1b[38:49;2u\0\0\0\0\0\0");
    assert!(rt; sent(&mut seat, &shifted('2')) == *b"\x1b[233:50;2u\0\0\0\0\0");
    assert!(rt; sent(&mut seat, &shifted('0')) == *b"\x1b[224:48;2u\0\0\0\0\0");
    assert!(rt; sent(&mut seat, &shifted('Q')) == *b"\x1b[113:81;2u\0\0\0\0\0");
    assert!(rt; sent(&mut seat, &shifted('?')) == *b"\x1b[63;2u\0\0\0\0\0\0\0\0\0");
    let mut placed = shifted('1');
    placed.raw = Some(RawKeyEvent {
        key: KeyCode::Char('1'),
        modifiers: Modifiers::SHIFT,
        leds: KeyboardLedStatus::NONE,
        phys_code: Some(PhysKeyCode::K1),
        raw_code: 0,
        repeat_count: 1,
        key_is_down: true,
    });
    assert!(rt; sent(&mut seat, &placed) == *b"\x1b[38:49:49;2u\0\0\0");
    assert!(rt; sent(&mut seat, &letter('&')) == *b"&\0\0\0\0\0\0\0\0\0\0\0\0\0\0\0");
}

// A drain asks for no more than what the drains before it left of the buffer; a call without room for its answer is
// not made.
#[test]
fn a_list_of_calls(rt: HostRuntime) {
    let calls = [
        Call::Push(1),
        Call::Key(letter('a')),
        Call::Query,
        Call::Drain(4),
        Call::Screen(2),
        Call::Drain(9),
        Call::Pop(1),
        Call::Query,
    ];
    let mut answers = [Ok(9); 7];
    let mut out = [9; 8];
    assert_eq!(rt; replayed(&calls, &mut answers, &mut out), (7, 6));
    let wanted = [
        Ok(0),
        Ok(1),
        Ok(5),
        Ok(4),
        Err(Refusal::Value),
        Ok(2),
        Ok(0),
    ];
    assert!(rt; answers == wanted);
    assert!(rt; out == *b"a\x1b[?1u\x09\x09");
}
