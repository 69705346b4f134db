//! Items that are put and taken, each at any bit.

use exi_bits::{BitCause, BitCursor, BitFault, BitPen, BitSpan, Full, SpanAt};

/// A number that has no room is refused with the bits that are needed.
fn a_number_has_no_room() -> bool {
    let mut room = [0xff_u8; 1];
    let mut pen = BitPen::new(&mut room);
    pen.put_bits(5, 3) == Ok(())
        && pen.put_bits(0, 6) == Err(Full { bits: 9 })
        && pen.finish() == 1
        && room[0] == 0xa0
}

/// A pen goes on behind the bits of another.
fn a_pen_goes_on() -> bool {
    let mut room = [0xff_u8; 2];
    let mut pen = BitPen::new(&mut room);
    let put = pen.put_bits(5, 3) == Ok(());
    let place = pen.into_place();
    let mut next = BitPen::behind(&mut room, place);
    put && place == 3 && next.put_bits(1, 6) == Ok(()) && next.finish() == 2 && room == [0xa0, 0x80]
}

/// Whether a span of two characters begins at bit 5.
fn is_at_bit_5(text: &BitSpan<'_>) -> bool {
    text.at() == SpanAt { bit: 5, chars: 2 } && text.len() == 2 && text.cursor().place() == 5
}

/// "id" from bit 5 on, and its bytes: a text at two places is the same.
fn texts_are_the_same() -> bool {
    let mut cursor = BitCursor::new(&[0x03, 0x4b, 0x20]);
    if cursor.take_bits(5) != Ok(0) {
        return false;
    }
    let mut letters = BitCursor::new(b"id");
    let (Ok(text), Ok(again)) = (cursor.take_chars(2), letters.take_chars(2)) else {
        return false;
    };
    is_at_bit_5(&text)
        && text.same_str("id")
        && !text.same_str("ids")
        && text.same(&again)
        && BitSpan::of_bytes(b"id").len() == 2
}

/// Puts an item of each kind.
fn items_are_put(room: &mut [u8; 16]) -> bool {
    let mut pen = BitPen::new(room);
    let bit = pen.put_bit(true) == Ok(());
    let unsigned = pen.put_unsigned(300) == Ok(());
    let integer = pen.put_integer(-2) == Ok(());
    let bytes = pen.put_bytes(b"\x0f") == Ok(());
    let text = pen.put_chars("z") == Ok(());
    let written = pen.written() == [0xd6, 0x01, 0x40, 0x43, 0xde, 0x80].as_slice();
    let length = pen.finish();
    bit && unsigned && integer && bytes && text && written && length == 6
}

/// Takes them again.
fn items_are_taken(room: &[u8; 16]) -> bool {
    let mut cursor = BitCursor::new(room);
    cursor.take_bit() == Ok(true)
        && cursor.take_unsigned() == Ok(300)
        && cursor.take_integer() == Ok(-2)
        && matches!(cursor.take_bytes(1), Ok(byte) if byte.same(&BitSpan::of_bytes(b"\x0f")))
}

/// Whether a fault is this one.
fn is_fault(fault: BitFault, cause: BitCause, bit: u32) -> bool {
    fault == BitFault { cause, bit }
}

/// An item that can't be taken is refused at its bit, and the cursor stays.
fn items_are_refused() -> bool {
    let mut wide = BitCursor::new(&[0xff; 10]);
    // U+D800 behind the letter a
    let mut surrogate = BitCursor::new(&[0x61, 0x80, 0xb0, 0x03]);
    matches!(BitCursor::new(&[]).take_bit(), Err(fault) if is_fault(fault, BitCause::ShortInput, 0))
        && BitCursor::new(&[]).take_bytes(1).is_err()
        && matches!(wide.take_unsigned(), Err(fault) if is_fault(fault, BitCause::WiderInteger, 0))
        && matches!(wide.take_integer(), Err(fault) if is_fault(fault, BitCause::ShortInput, 1))
        && matches!(surrogate.take_chars(2), Err(fault) if is_fault(fault, BitCause::BadChar, 8))
}

/// The blank span is the empty text.
fn blank_is_empty() -> bool {
    let blank = BitSpan::default();
    blank.len() == 0
        && blank.at() == SpanAt { bit: 0, chars: 0 }
        && blank.same_str("")
        && !blank.same_str("a")
}

#[test]
fn items_at_any_bit(rt: HostRuntime) {
    assert!(rt; a_number_has_no_room());
    assert!(rt; a_pen_goes_on());
    assert!(rt; texts_are_the_same());
    let mut room = [0_u8; 16];
    assert!(rt; items_are_put(&mut room) && items_are_taken(&room));
    assert!(rt; items_are_refused());
    assert!(rt; blank_is_empty());
}
